// A record's proof in sentences, written into lent bytes.
#![tactic(auto)]

mod lines;
mod measure;
mod name;
mod text_line;
pub mod write;
