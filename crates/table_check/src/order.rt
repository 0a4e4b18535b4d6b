// Test 4: each entry is well-formed at its number.
ghost use Rattle.std.specs.Prelude.{◌≤◌, not, ◌≡◌, length};
ghost use Rattle.basics.specs.First.{found};
ghost use Rattle.basics.specs.Limits.{most_formulas};
ghost use Rattle.table.specs.Entry.{entry};
ghost use Rattle.table.specs.Tests.{entries_of, well_formed_at, wrong_entry};
ghost use Rattle.table_check.specs.Bounds.{first_bound, second_bound};

use basics::limits::{MOST_ATOMS, MOST_PRINCIPALS};
use basics::word::{lower, upper};
use table::lent::Table;

// What the first operand of a kind is below, in an entry that is well-formed at number i. The kind stays a number, so
// that the entries of a table can be asked several at once.
fn first_bound(kind: u16, i: u16) -> u16
    ensures { result ≡ first_bound kind i }
{
    if kind == 0 {
        MOST_ATOMS as u16
    } else if kind == 1 {
        1
    } else if kind < 5 {
        i
    } else {
        MOST_PRINCIPALS as u16
    }
}

// The same for its second.
fn second_bound(kind: u16, i: u16) -> u16
    ensures { result ≡ second_bound kind i }
{
    if kind < 2 {
        1
    } else if kind < 6 {
        i
    } else {
        0
    }
}

// Whether the entry of a head and second is well-formed at number i. It is asked of the numbers, without a jump to the
// kind's own code, so that the entries of a table can be asked several at once; no formula, principal or atom is made
// of them.
fn is_well_formed(i: u16, head: u16, second: u16) -> bool
    ensures { result ≡ well_formed_at i (entry head second) }
{
    let kind = upper(head);
    (lower(head) < first_bound(kind, i)) & (second < second_bound(kind, i))
}

// Whether all entries are well-formed. There is no way out before the end: this is what makes it fast.
fn are_well_formed(table: Table) -> bool
    requires { (length table.heads.now ≡ length table.seconds.now) × (length table.heads.now ≤ most_formulas) }
    ensures { result ≡ not (found (wrong_entry (entries_of table.entry))) }
{
    let mut so_far = true;
    for i in 0..table.heads.len() {
        so_far &= is_well_formed(i as u16, table.heads[i], table.seconds[i]);
    }
    so_far
}

// "4. An entry has kind 6 or more or a wrong operand (place: the first such entry)."
pub(crate) fn wrong_entry(table: Table) -> Option<usize>
    requires { (length table.heads.now ≡ length table.seconds.now) × (length table.heads.now ≤ most_formulas) }
    ensures { result ≡ wrong_entry (entries_of table.entry) }
{
    if are_well_formed(table) {
        return None;
    }
    (0..table.heads.len()).find(|&i| !is_well_formed(i as u16, table.heads[i], table.seconds[i]))
}
