// Test 5 by chains, in linear time whatever the table: the entries of each head are chained, and along a chain each
// second is looked up among those before it.
ghost use Rattle.std.specs.Prelude.{◌≡◌, length, get_or};
ghost use Rattle.table.specs.Tests.{repeated_entry};
ghost use Rattle.table_check.specs.Chains.{AfterFour, Chained, Notes, FromFirst, FirstOfHead};

use crate::same::are_same;
use basics::limits::{MOST_ATOMS, MOST_FORMULAS};
use table::lent::Table;

// The head of an entry of the six kinds is lower: a kind has as many heads as there are atoms.
const HEADS: usize = 6 * MOST_ATOMS;

// No entry has this number.
const NONE: u16 = MOST_FORMULAS as u16;

// Chains the entries of each head: `first` has at a head the first entry with it, `next` at an entry the next one with
// its head, or a number that is no entry.
fn chain(heads: &[u16], first: &mut [u16], next: &mut [u16])
    requires { Chained heads.now first.old next.old (length heads.now) }
    ensures { Chained heads.now first.new next.new 0 }
{
    for i in (0..heads.len()).rev() {
        let head = heads[i] as usize;
        next[i] = first[head];
        first[head] = i as u16;
    }
}

// The first entry of a chain that has the second of an earlier one, if it stands before `bound`; else `bound`. The
// chain begins at entry i. `seen` has at a second the last entry that was met with it.
fn repeated_in_chain(table: Table, next: &[u16], seen: &mut [u16], i: usize, bound: usize) -> usize
    requires { FromFirst table.heads.now table.seconds.now next.now seen.old i bound }
    ensures first_of_head { FirstOfHead table.entry.heads.now table.entry.seconds.now (get_or table.entry.heads.now i 0) bound result }
    ensures notes { Notes table.entry.heads.now seen.new }
{
    let mut found = bound;
    let mut j = i;
    while j < found {
        let second = table.seconds[j] as usize;
        let k = seen[second] as usize;
        if k < j && are_same(table, j, k) {
            found = j;
        } else {
            seen[second] = j as u16;
            j = next[j] as usize;
        }
    }
    found
}

// The first entry that has the head and second of an earlier one. The chains have a frame of their own, as the slots of
// an index have.
#[inline(never)]
pub(crate) fn repeated_by_head(table: Table) -> Option<usize>
    requires { AfterFour table.heads.now table.seconds.now }
    ensures { result ≡ repeated_entry table.entry.heads.now table.entry.seconds.now }
{
    let mut first = [NONE; HEADS];
    let mut next = [0u16; MOST_FORMULAS];
    let mut seen = [0u16; MOST_FORMULAS];
    chain(table.heads, &mut first, &mut next);
    let mut found = table.heads.len();
    for (i, &head) in table.heads.iter().enumerate() {
        if found <= i {
            break;
        }
        if (next[i] as usize) < found && first[head as usize] as usize == i {
            found = repeated_in_chain(table, &next, &mut seen, i, found);
        }
    }
    (found < table.heads.len()).then_some(found)
}
