// The text of a formula, and how long it is, from the number of its entry.
#![tactic(auto)]

pub mod formula;
pub mod length;
