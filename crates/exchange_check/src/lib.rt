// The exchange check in code: 1 to 3, 4, 5 and 7, 9 to 15, and all of them in order. `exchange` has what it answers.
#![tactic(auto)]

mod arrays;
pub mod check;
pub mod layout;
mod step_tests;
