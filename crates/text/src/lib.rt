// Text written into bytes that a caller lends: a byte string, and a number in decimal; and a number read from its
// decimal digits.
#![tactic(auto)]

pub mod decimal;
pub mod fill;
pub mod parse;
