// The refusal that every check answers with, the limits of 01, lent lists of words, and words that hold two numbers.
// Definitions are in specs/.
#![tactic(auto)]

pub mod limits;
pub mod list;
pub mod refusal;
pub mod word;
