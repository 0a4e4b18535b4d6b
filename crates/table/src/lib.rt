// Formula tables of document 01: an entry taken apart; a table as it is lent, with test 2, its size. The code of 4 and
// 5 is in `table_check`.
#![tactic(auto)]

pub mod entry;
pub mod lent;
