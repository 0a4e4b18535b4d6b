// How many signers and how many bytes a call wrote that writes a record's proof in sentences.
#[derive(Clone, Copy, Debug, PartialEq, Eq)]
pub struct Counts {
    pub signers: usize,
    pub bytes: usize,
}
