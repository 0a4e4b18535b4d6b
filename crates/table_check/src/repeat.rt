// Test 5: no entry has the head and second of an earlier one. An index answers for most tables; where the search by a
// large one has passed a quarter as many entries as there are, chains by head answer, which go to each entry once. A
// small one passes at most 32 entries for each. So the time is linear in the number of entries, whatever the table.
ghost use Rattle.std.specs.Prelude.{◌<◌, ◌≤◌, ◌≡◌, ◌+◌, ◌*◌, length};
ghost use Rattle.table.specs.Tests.{repeated_entry};
ghost use Rattle.table_check.specs.Index.{Answers};
ghost use Rattle.table_check.specs.Chains.{AfterFour};

use crate::by_head::repeated_by_head;
use crate::by_index::{GivenUp, repeated_by};
use basics::limits::MOST_FORMULAS;
use table::lent::Table;

// How many entries an index is for, its roots, and its slots: the roots and two for each entry. A table of few entries
// has a small index, since clearing a large one would take longer than the search.
const FEWEST: usize = 8;

const FEWEST_ROOTS: usize = 16;

const FEWEST_SLOTS: usize = FEWEST_ROOTS + 2 * FEWEST;

const FEW: usize = 64;

const FEW_ROOTS: usize = 128;

const FEW_SLOTS: usize = FEW_ROOTS + 2 * FEW;

const SOME: usize = 256;

const SOME_ROOTS: usize = 512;

const SOME_SLOTS: usize = SOME_ROOTS + 2 * SOME;

const MANY: usize = 1024;

const MANY_ROOTS: usize = 4096;

const MANY_SLOTS: usize = MANY_ROOTS + 2 * MANY;

const MOST_ROOTS: usize = 16384;

const MOST_SLOTS: usize = MOST_ROOTS + 2 * MOST_FORMULAS;

// No search by an index of some or fewer entries passes more: a path is no longer than the 32 bits of a key. So these
// searches are never given up.
const ENOUGH: usize = 32 * SOME;

// The search by an index of so many roots and slots. Each has a frame of its own: in the frame for a small table the
// slots of a large one would cost more than the whole search.
#[inline(never)]
fn repeated_with<const ROOTS: usize, const SLOTS: usize>(
    table: Table,
    passes: usize,
) -> Result<Option<usize>, GivenUp>
    requires alike { length table.heads.now ≡ length table.seconds.now }
    requires some_root { 0 < ROOTS }
    requires room { ROOTS + 2 * length table.heads.now ≤ SLOTS }
    requires few { SLOTS < 65536 }
    ensures { Answers result (repeated_entry table.entry.heads.now table.entry.seconds.now) }
{
    let mut slots = [0u16; SLOTS];
    repeated_by(table, &mut slots, ROOTS, passes)
}

// "5. An entry has the head and second of an earlier one (place: the first such later entry; ..)." "5 .. tested after 4
// has passed the whole table". A large index may pass a quarter as many entries as there are: a table that isn't made
// for it passes about an eighth as many.
pub(crate) fn repeated_entry(table: Table) -> Option<usize>
    requires { AfterFour table.heads.now table.seconds.now }
    ensures { result ≡ repeated_entry table.entry.heads.now table.entry.seconds.now }
{
    let quarter = table.heads.len() / 4;
    let answer = if table.heads.len() <= FEWEST {
        repeated_with::<FEWEST_ROOTS, FEWEST_SLOTS>(table, ENOUGH)
    } else if table.heads.len() <= FEW {
        repeated_with::<FEW_ROOTS, FEW_SLOTS>(table, ENOUGH)
    } else if table.heads.len() <= SOME {
        repeated_with::<SOME_ROOTS, SOME_SLOTS>(table, ENOUGH)
    } else if table.heads.len() <= MANY {
        repeated_with::<MANY_ROOTS, MANY_SLOTS>(table, quarter)
    } else {
        repeated_with::<MOST_ROOTS, MOST_SLOTS>(table, quarter)
    };
    match answer {
        Ok(place) => place,
        Err(GivenUp) => repeated_by_head(table),
    }
}
