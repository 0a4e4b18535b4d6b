// The signers of statements over a table: definitions and theorems, no code. `signers_write` has that.

#![tactic(auto)]
