// The logic has no code: its definitions and the statements of its theorems are in specs/, the proofs in proofs/.

#![tactic(auto)]
