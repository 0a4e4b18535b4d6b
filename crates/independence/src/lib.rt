// Whether a principal can matter: definitions and theorems, no code. `independence_check` has that.
#![tactic(auto)]
