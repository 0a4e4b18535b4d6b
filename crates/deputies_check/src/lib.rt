// Who speaks for whom, in code: so far each for himself alone.
#![tactic(auto)]

pub mod speaks;
