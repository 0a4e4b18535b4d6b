// The signers of a record in code: the formulas that says lefts name, and the principals of the statements among them.
// `signers` has who they are.
#![tactic(auto)]

mod collect;
mod few;
pub mod list;
mod many;
mod used;
