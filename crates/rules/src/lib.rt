// One step of a proof in code: the rules of 01's table, and tests 10 to 14 over them.
#![tactic(auto)]

mod rules;
pub mod step;
