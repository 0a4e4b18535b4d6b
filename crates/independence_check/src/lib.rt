// The test whether a principal can matter, in code: the sides of a table's formulas, the test over arrays, and the
// call. `independence` has what it answers.
#![tactic(auto)]

pub mod check;
mod sides;
mod test;
