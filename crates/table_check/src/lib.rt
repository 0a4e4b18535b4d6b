// The code of tests 4 and 5 of document 01, and a table's tests, 2, 4 and 5, in their order. A table is lent as two
// arrays.
#![tactic(auto)]

mod by_head;
mod by_index;
pub mod check;
pub mod order;
mod repeat;
mod same;
