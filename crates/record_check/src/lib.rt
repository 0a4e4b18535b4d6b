// The check of a record in code: 1 to 3; 2 and 4 to 15, and 8, over arrays, in parts that write nothing; and
// all of them in order. `record` has what it answers.
#![tactic(auto)]

pub mod check;
pub mod judge;
pub mod layout;
