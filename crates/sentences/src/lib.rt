// A record's proof in sentences: definitions and theorems, and what a call counts. `sentences_write` has the code.
#![tactic(auto)]

pub mod counts;
