// "A goal is a truth of one formula or an affirmation of one formula by one principal." (01)
use table::entry::{Formula, Principal};

#[derive(Clone, Copy)]
pub enum Goal {
    True(Formula),
    Affirms(Principal, Formula),
}
