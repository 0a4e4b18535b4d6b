// The hypotheses held at a place of the walk: a set of formula numbers, in which each is found in constant time.
#![tactic(auto)]

pub mod hypotheses;
