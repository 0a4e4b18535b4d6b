// "For a principal K the test says independent exactly when no says-formula of K stands on the proving side of the goal
// or of any statement, leaving out statements that are themselves K says something." (02, job 5)
ghost use Rattle.std.specs.Prelude.{◌≤◌, ◌≡◌, List, map, length};
ghost use Rattle.basics.specs.Limits.{most_formulas};
ghost use Rattle.logic.specs.Proposition.{Proposition};
ghost use Rattle.logic.specs.Sides as Sides;
ghost use Rattle.table.specs.Tests.{entries_of, SizedTable};
ghost use Rattle.table.specs.Spelled.{proposition, spelled, spell, spell_all};
ghost use Rattle.steps.specs.Figure1.{same};
ghost use Rattle.independence.specs.Test.{is_own, proving_says, in_statement, in_statements};
ghost use Rattle.independence_check.specs.Parts.{arrays_independent};

use crate::sides::mark_sides;
use basics::limits::MOST_FORMULAS;
use marks::is_set;
use table::entry::{Entry, Principal};
use table::lent::Table;

// Room for the marks of a small table. To clear room for the largest would take longer than all else.
const FEW_FORMULAS: usize = 64;

// Whether an entry is itself K says something. This is K's own number, whoever speaks for whom.
fn is_own(k: Principal, entry: Entry) -> bool
    ensures { (made : List Proposition) → result ≡ is_own k.0 (proposition made entry) }
{
    matches!(entry, Entry::Says(l, _) if l.0 == k.0)
}

// Whether a says-formula that counts stands in a statement that isn't K's own. The table's formulas are marked for the
// given side.
fn in_statement(table: Table, n: u16, k: Principal, given: &[bool]) -> bool
    requires { given.now ≡ map (proving_says same k.0 Sides.given) (spelled (entries_of table)) }
    ensures { result ≡ in_statement same k.0 (spell (entries_of table.entry) n) }
{
    is_set(given, n as usize) && !is_own(k, table.entry_at(n))
}

// The same of some statement.
fn in_some_statement(table: Table, statements: &[u16], k: Principal, given: &[bool]) -> bool
    requires { given.now ≡ map (proving_says same k.0 Sides.given) (spelled (entries_of table)) }
    ensures { result ≡ in_statements same k.0 (spell_all (entries_of table.entry) statements.now) }
{
    statements.iter().any(|&n| in_statement(table, n, k, given))
}

// The test of a table of at most N formulas.
fn test_with<const N: usize>(table: Table, statements: &[u16], goal: u16, k: Principal) -> bool
    requires sized_table { SizedTable table.heads.now table.seconds.now }
    requires room { (length table.heads.now ≤ N) × (N ≤ most_formulas) }
    ensures { result ≡ arrays_independent table.entry.heads.now table.entry.seconds.now statements.now goal k.0 }
{
    let mut proving = [false; N];
    let mut given = [false; N];
    mark_sides(table, k, &mut proving, &mut given);
    let formulas = table.heads.len();
    if is_set(&proving[..formulas], goal as usize) {
        return false;
    }
    !in_some_statement(table, statements, k, &given[..formulas])
}

// Whether the goal is independent of K, over a table of a size that 2 allows.
pub(crate) fn is_independent(table: Table, statements: &[u16], goal: u16, k: Principal) -> bool
    requires { SizedTable table.heads.now table.seconds.now }
    ensures { result ≡ arrays_independent table.entry.heads.now table.entry.seconds.now statements.now goal k.0 }
{
    if table.heads.len() <= FEW_FORMULAS {
        test_with::<FEW_FORMULAS>(table, statements, goal, k)
    } else {
        test_with::<MOST_FORMULAS>(table, statements, goal, k)
    }
}
