// Statements that are named, and those that lay unused.
ghost use Rattle.std.specs.Prelude.{false, ◌≡◌, get_or};
ghost use Rattle.basics.specs.Choice.{pick};
ghost use Rattle.table.specs.declared.entry.Entry.TheVariants.{IllFormed};
ghost use Rattle.table.specs.Tests.{entries_of, entry_at};

use marks::is_set;
use table::entry::Entry;
use table::lent::Table;

// A statement's entry where its flag is set, and else one that has no principal: "a paper that lay unused makes no
// signer" (02, job 3).
pub(crate) fn used_entry(table: Table, named: &[bool], statement: u16) -> Entry
    ensures { result ≡ pick (get_or named.now statement false) (entry_at (entries_of table.entry) statement) IllFormed }
{
    if is_set(named, statement as usize) {
        return table.entry_at(statement);
    }
    Entry::IllFormed
}
