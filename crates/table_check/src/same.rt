// What test 5 compares: two entries of a table.
ghost use Rattle.std.specs.Prelude.{◌≡◌};
ghost use Rattle.table.specs.Tests.{same};
ghost use Rattle.table_check.specs.Index.{Within};

use table::lent::Table;

// Whether entries i and j have the same head and the same second. They are compared as words: no entry is made of them.
pub(crate) fn are_same(table: Table, i: usize, j: usize) -> bool
    requires { Within table.heads.now table.seconds.now i × Within table.heads.now table.seconds.now j }
    ensures { result ≡ same table.entry.heads.now table.entry.seconds.now i j }
{
    table.heads[i] == table.heads[j] && table.seconds[i] == table.seconds[j]
}
