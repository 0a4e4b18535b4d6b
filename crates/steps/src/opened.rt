// What one step leaves to prove, in the machine's words. The code has a step's premises by their shape, `Premises` of
// the crate `premises`, and takes each as a `Premise`.
use crate::goal::Goal;
use table::entry::Formula;

// The hypotheses that a premise adds.
#[derive(Clone, Copy)]
pub enum Added {
    Nothing,
    One(Formula),
    Two(Formula, Formula),
}

#[derive(Clone, Copy)]
pub struct Premise {
    pub goal: Goal,
    pub added: Added,
}

// Refused with a number, 01's, as in `Refusal`, or the premises in their order.
#[derive(Clone, Copy)]
pub enum Opened {
    Refused(u8),
    Closed,
    One(Premise),
    Two(Premise, Premise),
}
