// What the checks of records and exchange files share: reading 16-bit words out of bytes, the tests of a layout, and
// numbers in a range.
#![tactic(auto)]

pub mod layout;
pub mod numbers;
pub mod words;
