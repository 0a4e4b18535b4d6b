// Where the demands come together: definitions and theorems, and no code.

#![tactic(auto)]
