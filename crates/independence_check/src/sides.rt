// Sides: "a goal stands on the proving side, a statement on the given side; operands keep the side, but the left of an
// implies takes the other" (02, job 5). One pass over the table marks, for either side, the formulas in which a
// says-formula that counts stands, where the formula itself stands on that side; each from the marks of its operands.
ghost use Rattle.std.specs.Prelude.{◌≤◌, length};
ghost use Rattle.logic.specs.Sides as Sides;
ghost use Rattle.table.specs.Tests.{entries_of};
ghost use Rattle.independence_check.specs.SideMarks.{MarkedFor, MarksOf};

use deputies_check::speaks::speaks_for;
use marks::is_set;
use table::entry::{Entry, Principal, take_apart};
use table::lent::Table;

// Whether a says-formula that counts stands in a formula, where that itself stands on the proving side, and where it
// stands on the given side.
#[derive(Clone, Copy)]
struct Marks {
    proving: bool,
    given: bool,
}

// The marks of an entry, by those of the entries before it. What has no mark yet spells false, in which none stands.
fn marks_of(proving: &[bool], given: &[bool], k: Principal, entry: Entry) -> Marks
    ensures { MarksOf k.0 proving.now given.now entry result.proving result.given }
{
    match entry {
        Entry::Implies(a, b) => Marks {
            proving: is_set(given, a.0 as usize) | is_set(proving, b.0 as usize),
            given: is_set(proving, a.0 as usize) | is_set(given, b.0 as usize),
        },
        Entry::And(a, b) | Entry::Or(a, b) => Marks {
            proving: is_set(proving, a.0 as usize) | is_set(proving, b.0 as usize),
            given: is_set(given, a.0 as usize) | is_set(given, b.0 as usize),
        },
        Entry::Says(l, a) => Marks {
            proving: speaks_for(k, l) | is_set(proving, a.0 as usize),
            given: is_set(given, a.0 as usize),
        },
        _ => Marks {
            proving: false,
            given: false,
        },
    }
}

// Marks each formula for both sides. An entry looks its operands up among those before it, so one that isn't lower
// counts as false, as it is spelled.
pub(crate) fn mark_sides(table: Table, k: Principal, proving: &mut [bool], given: &mut [bool])
    requires proving_room { length (entries_of table) ≤ length proving.old }
    requires given_room { length (entries_of table) ≤ length given.old }
    ensures proving_after { MarkedFor Sides.proving k.0 table.entry.heads.now table.entry.seconds.now proving.new }
    ensures given_after { MarkedFor Sides.given k.0 table.entry.heads.now table.entry.seconds.now given.new }
{
    for i in 0..table.heads.len().min(table.seconds.len()) {
        let entry = take_apart(table.heads[i], table.seconds[i]);
        let marks = marks_of(&proving[..i], &given[..i], k, entry);
        proving[i] = marks.proving;
        given[i] = marks.given;
    }
}
