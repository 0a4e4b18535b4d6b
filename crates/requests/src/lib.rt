// What document 02 asks for, as one promise: definitions and theorems in specs/ and proofs/, and no code.

#![tactic(auto)]
