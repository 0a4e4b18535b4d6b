// All tests of a table, in 01's order.
ghost use Rattle.std.specs.Prelude.{◌≡◌};
ghost use Rattle.table.specs.Tests.{table_tests};

use crate::order::wrong_entry;
use crate::repeat::repeated_entry;
use basics::refusal::Refusal;
use table::lent::Table;

// 2, 4 and 5. "5 .. tested after 4 has passed the whole table"
pub fn check_table(table: Table) -> Result<(), Refusal>
    ensures { result ≡ table_tests table.entry.heads.now table.entry.seconds.now }
{
    if !table.is_sized() {
        return Err(Refusal {
            number: 2,
            place: 0,
        });
    }
    if let Some(place) = wrong_entry(table) {
        return Err(Refusal { number: 4, place });
    }
    if let Some(place) = repeated_entry(table) {
        return Err(Refusal { number: 5, place });
    }
    Ok(())
}
