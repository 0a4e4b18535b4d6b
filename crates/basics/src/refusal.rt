// "A refusal gives its number and a place" (01). Places count from 0. The number stays a number: the line prints it, C
// gets it, and every definition and theorem names a refusal by it (`refused_line`, `refusal_code`, `RefusedExactly`).
#[derive(Clone, Copy, Debug, PartialEq, Eq)]
pub struct Refusal {
    pub number: u8,
    pub place: usize,
}
