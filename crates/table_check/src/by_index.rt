// Test 5 by an index. The entries so far stand in digital search trees: below an entry, the next bit of a key tells
// which way to go. There are more trees than entries, so that in most tables no path is long. They stand in an array,
// since there is no heap.
ghost use Rattle.std.specs.Prelude.{◌<◌, ◌≡◌, length};
ghost use Rattle.table.specs.Tests.{repeated_entry};
ghost use Rattle.table_check.specs.Index.{root, key, Within, Indexed, Told, Answers};

use crate::same::are_same;
use table::lent::Table;

// The root of the tree for a head and a second: the upper bits of a product, in which all their bits have a part. What
// is the same has the same root; no more is needed of it.
fn root_of(head: u16, second: u16, roots: usize) -> usize
    requires { roots < 65536 }
    ensures { result ≡ root roots head second }
{
    (head as usize + second as usize * 39277) * 40503 % 65536 * roots / 65536
}

// Its bits lead through the tree. Any would do for the answer; since unlike entries have unlike keys, no path is longer
// than their 32 bits.
fn key_of(head: u16, second: u16) -> usize
    ensures { result ≡ key head second }
{
    head as usize + second as usize * 65536
}

// Takes entry i into the index, and answers how many entries were passed on its path, unless an earlier entry has its
// head and second. The first `roots` slots lead to the trees, then two for each entry lead on from it. A link is one
// more than the number of an entry, or 0 for none. No path is long, so that it's enough to ask after each entry how
// many were passed; asking at each would be slower.
fn take_in(table: Table, slots: &mut [u16], roots: usize, i: usize) -> Option<usize>
    requires { Within table.heads.now table.seconds.now i × Indexed table.heads.now table.seconds.now roots slots.old i }
    ensures { Told table.entry.heads.now table.entry.seconds.now roots slots.new i result }
{
    let head = table.heads[i];
    let second = table.seconds[i];
    let mut bits = key_of(head, second);
    let mut at = root_of(head, second, roots);
    let mut link = slots[at] as usize;
    let mut passed = 0;
    while 0 < link {
        let j = link - 1;
        if are_same(table, i, j) {
            return None;
        }
        passed += 1;
        at = roots + 2 * j + bits % 2;
        bits = bits / 2;
        link = slots[at] as usize;
    }
    slots[at] = (i + 1) as u16;
    Some(passed)
}

// The search by an index has no answer: too many entries had been passed.
#[derive(Clone, Copy, Debug, PartialEq, Eq)]
pub struct GivenUp;

// The first entry that has the head and second of an earlier one, by an index that is empty yet. All entries together
// may pass `passes` entries on their paths.
pub(crate) fn repeated_by(
    table: Table,
    slots: &mut [u16],
    roots: usize,
    passes: usize,
) -> Result<Option<usize>, GivenUp>
    requires { (length table.heads.now ≡ length table.seconds.now) × Indexed table.heads.now table.seconds.now roots slots.old 0 }
    ensures { Answers result (repeated_entry table.entry.heads.now table.entry.seconds.now) }
{
    let mut left = passes;
    for i in 0..table.heads.len() {
        let Some(passed) = take_in(table, slots, roots, i) else {
            return Ok(Some(i));
        };
        left = left.checked_sub(passed).ok_or(GivenUp)?;
    }
    Ok(None)
}
