// The goal of each step of a proof, for callers that say something of each step after the steps have passed their
// tests.
#![tactic(auto)]

pub mod goals;
pub mod kept;
