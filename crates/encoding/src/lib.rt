// The files of derivations within the limits: definitions and theorems, no code.

#![tactic(auto)]
