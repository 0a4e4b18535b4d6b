// The exchange file: definitions and theorems, no code. `exchange_check` has that.
#![tactic(auto)]
