// A table as it is lent: "two parallel arrays of F words each, heads and seconds" (01).
ghost use Rattle.std.specs.Prelude.{◌≡◌, length, leb};
ghost use Rattle.basics.specs.Choice.{both};
ghost use Rattle.basics.specs.Limits.{most_formulas};
ghost use Rattle.table.specs.Tests.{sized, entry_at, entries_of};

use crate::entry::{Entry, take_apart};
use basics::limits::MOST_FORMULAS;

#[derive(Clone, Copy)]
pub struct Table<'a> {
    pub heads: &'a [u16],
    pub seconds: &'a [u16],
}

// "F formulas (1 to 4,096)"
fn in_range(formulas: usize) -> bool
    ensures { result ≡ both (leb 1 formulas) (leb formulas most_formulas) }
{
    1 <= formulas && formulas <= MOST_FORMULAS
}

impl Table<'_> {
    // How many entries it has: a head or a second that stands alone is none.
    #[tactic(auto, using(crate::proofs::Entries::length_entries))]
    pub fn len(self) -> usize
        ensures { result ≡ length (entries_of self.entry) }
    {
        self.heads.len().min(self.seconds.len())
    }

    // Test 2 of a table: "A table lent as two arrays of unlike length meets 2."
    pub fn is_sized(self) -> bool
        ensures { result ≡ sized self.entry.heads.now self.entry.seconds.now }
    {
        self.heads.len() == self.seconds.len() && in_range(self.heads.len())
    }

    // The entry of a number, ill-formed where the number is past either array.
    pub fn entry_at(self, n: u16) -> Entry
        ensures { result ≡ entry_at (entries_of self.entry) n }
    {
        let i = n as usize;
        if i < self.heads.len() && i < self.seconds.len() {
            take_apart(self.heads[i], self.seconds[i])
        } else {
            Entry::IllFormed
        }
    }
}
