// What classes and planners may rely on: definitions and theorems in specs/ and proofs/, and no code.

#![tactic(auto)]
