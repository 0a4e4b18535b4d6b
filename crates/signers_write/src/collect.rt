// "The signers of a record are the principals K of its statements of the form K says A, each once" (01), "in rising
// principal number" (02, job 1); and only those with a statement "that some says-left step names" (02, job 3). The
// formulas that are named have their flags set.
ghost use Rattle.std.specs.Prelude.{◌≡◌, length};
ghost use Rattle.basics.specs.Written.{written};
ghost use Rattle.table.specs.Tests.{entries_of};
ghost use Rattle.marks.specs.Flagged.{flagged};
ghost use Rattle.signers.specs.Signers.{signers};

use crate::few::{FEW, write_few};
use crate::many::write_many;
use table::lent::Table;

// Writes the signers, rising, from the start of a list, as far as the list goes, and answers how many they are.
pub(crate) fn write_signers(
    table: Table,
    statements: &[u16],
    named: &[bool],
    list: &mut [u16],
) -> usize
    ensures value { result ≡ length (signers (entries_of table.entry) statements.now (flagged named.now)) }
    ensures list_after { list.new
        ≡ written list.old (signers (entries_of table.entry) statements.now (flagged named.now)) }
{
    if statements.len() <= FEW {
        return write_few(table, statements, named, list);
    }
    write_many(table, statements, named, list)
}
