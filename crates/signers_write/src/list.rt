// The signers of a record over its arrays: "a principal K with a statement K says A that some says-left step names"
// (02, job 3).
ghost use Rattle.std.specs.Prelude.{◌≤◌, min, false, ◌≡◌, [], length, replicate};
ghost use Rattle.basics.specs.Choice.{pick};
ghost use Rattle.basics.specs.Limits.{most_formulas};
ghost use Rattle.basics.specs.Word.{upper as upper_of};
ghost use Rattle.basics.specs.Written.{written};
ghost use Rattle.marks.specs.Flagged.{set_all};
ghost use Rattle.steps.specs.Naming.{named, named_numbers, is_says_left};
ghost use Rattle.signers_write.specs.Arrays.{arrays_signers};

use crate::collect::write_signers;
use basics::limits::MOST_FORMULAS;
use basics::word::{lower, upper};
use marks::set_flag;
use table::lent::Table;

// | 11 | says left |
const SAYS_LEFT: u16 = 11;

// Tables of so many formulas have flags of their own, since to clear those of the longest table would take as long as
// all else in the check of a small file.
const FEW_FORMULAS: usize = 64;

// Sets the flag of the formula that a word names, if it is a says left.
fn mark_word(flags: &mut [bool], word: u16)
    ensures { flags.new ≡ set_all flags.old (pick (is_says_left (upper_of word)) (named word) []) }
{
    if upper(word) == SAYS_LEFT {
        set_flag(flags, lower(word) as usize);
    }
}

// Sets the flags of the formulas that says lefts name.
fn mark_says_lefts(flags: &mut [bool], steps: &[u16])
    ensures { flags.new ≡ set_all flags.old (named_numbers is_says_left steps.now) }
{
    for &word in steps {
        mark_word(flags, word);
    }
}

// Writes the signers, with flags for all formulas of the table, or for all that a word can name. None is set before.
fn list_marked_signers(
    table: Table,
    statements: &[u16],
    steps: &[u16],
    flags: &mut [bool],
    list: &mut [u16],
) -> usize
    requires flags_value { flags.old ≡ replicate (length flags.old) false }
    requires most_formulas_in_bounds { min (length table.heads.now) most_formulas ≤ length flags.old }
    ensures value { result
        ≡ length (arrays_signers table.entry.heads.now table.entry.seconds.now statements.now steps.now) }
    ensures list_after { list.new
        ≡ written list.old (arrays_signers table.entry.heads.now table.entry.seconds.now statements.now steps.now) }
{
    mark_says_lefts(flags, steps);
    write_signers(table, statements, flags, list)
}

// Writes the signers, rising, from the start of a list, as far as the list goes, and answers how many they are.
pub fn list_signers(table: Table, statements: &[u16], steps: &[u16], list: &mut [u16]) -> usize
    ensures value { result
        ≡ length (arrays_signers table.entry.heads.now table.entry.seconds.now statements.now steps.now) }
    ensures list_after { list.new
        ≡ written list.old (arrays_signers table.entry.heads.now table.entry.seconds.now statements.now steps.now) }
{
    if table.heads.len() <= FEW_FORMULAS {
        let mut flags = [false; FEW_FORMULAS];
        return list_marked_signers(table, statements, steps, &mut flags, list);
    }
    let mut flags = [false; MOST_FORMULAS];
    list_marked_signers(table, statements, steps, &mut flags, list)
}

// How many signers there are.
pub fn count_signers(table: Table, statements: &[u16], steps: &[u16]) -> usize
    ensures { result ≡ length (arrays_signers table.entry.heads.now table.entry.seconds.now statements.now steps.now) }
{
    let mut none = [0u16; 0];
    list_signers(table, statements, steps, &mut none)
}
