// The proof checker: it walks step words as the machine of the crate `steps` does, with each hypothesis found in
// constant time.
#![tactic(auto)]

pub mod check;
mod walk;
