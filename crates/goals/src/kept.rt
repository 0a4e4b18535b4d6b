// A goal kept in two words: the number of a formula, and whether what is kept is the formula's truth (0) or, where the
// formula is K says A, the affirmation of A by K (any other word). So no principal has to be kept: it is taken from the
// entry again. It is a word, not a bool or an enum, since `goal_at` answers for every word.
ghost use Rattle.std.specs.Prelude.{◌≡◌};
ghost use Rattle.table.specs.Tests.{entries_of};
ghost use Rattle.goals.specs.Kept.{goal_at};

use steps::goal::Goal;
use table::entry::{Entry, goal_formula};
use table::lent::Table;

#[derive(Clone, Copy)]
pub struct Kept {
    pub number: u16,
    pub affirms: u16,
}

// The goal that is kept so. A word that asks for an affirmation where the formula is no says-formula counts as 0.
pub fn goal_at(table: Table, number: u16, affirms: u16) -> Goal
    ensures { result ≡ goal_at (entries_of table.entry) number affirms }
{
    if affirms == 0 {
        return Goal::True(goal_formula(number));
    }
    match table.entry_at(number) {
        Entry::Says(k, a) => Goal::Affirms(k, a),
        _ => Goal::True(goal_formula(number)),
    }
}
