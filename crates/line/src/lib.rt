// The lines that the programs print for an answer: definitions and theorems, and no code.

#![tactic(auto)]
