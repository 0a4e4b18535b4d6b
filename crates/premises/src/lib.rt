// What a step leaves to prove: the premises of a rule by their shape, the first and the last of them, and how many
// there are by the rule's code.
#![tactic(auto)]

pub mod premise_count;
pub mod premises;
