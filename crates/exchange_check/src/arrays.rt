// Tests 4, 5 and 7: the table, and the statements' numbers.
ghost use Rattle.std.specs.Prelude.{◌≡◌};
ghost use Rattle.basics.specs.Refusals.{first_refusal};
ghost use Rattle.table.specs.Tests.{SizedTable};
ghost use Rattle.exchange_check.specs.Parts.{array_tests};

use basics::refusal::Refusal;
use file::numbers::first_outside;
use table::lent::Table;
use table_check::check::check_table;

// 4, 5 and 7, over a table of a size that 2 allows. "Places for 7 run through both lists": these are the two, one after
// the other.
#[tactic(auto, using(crate::proofs::ArrayTests::refused_7, crate::proofs::ArrayTests::passed_7))]
pub(crate) fn check_arrays(table: Table, lists: &[u16]) -> Result<(), Refusal>
    requires { SizedTable table.heads.now table.seconds.now }
    ensures { result ≡ first_refusal (array_tests table.entry.heads.now table.entry.seconds.now lists.now) }
{
    check_table(table)?;
    if let Some(place) = first_outside(table.heads.len(), lists) {
        return Err(Refusal { number: 7, place });
    }
    Ok(())
}
