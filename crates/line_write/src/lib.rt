// Writing the line of an answer into lent bytes, whole or not at all: whether it has room, a grant's and a refusal's
// line, and the line of an answer.
#![tactic(auto)]

pub mod exchange_line;
mod granted;
pub mod independence_line;
mod measure;
pub mod record_line;
mod refused;
mod whole;
