// The types of the step machine: goals, and what a step opens. The machine itself is in specs/.
#![tactic(auto)]

pub mod goal;
pub mod opened;
