// The record: definitions and theorems, no code. `record_check` has that.
#![tactic(auto)]
