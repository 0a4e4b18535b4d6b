// The lengths of the texts of a table's formulas, each from those of its operands: one pass over the table. A formula's
// text can have 2 to the 4,000 bytes, so lengths stop growing at 2 to the 63, which no slice's length reaches.
ghost use Rattle.std.specs.Prelude.{◌+◌, ◌≡◌, List, map, length};
ghost use Rattle.basics.specs.Written.{written};
ghost use Rattle.logic.specs.Proposition.{Proposition};
ghost use Rattle.table.specs.Tests.{entries_of};
ghost use Rattle.table.specs.Spelled.{among, proposition};
ghost use Rattle.sentences.specs.Formula.{principal_text};
ghost use Rattle.formula_write.specs.Length.{capped, length_of, lengths_of};

use table::entry::{Entry, Formula, Principal, take_apart};
use table::lent::Table;
use text::decimal::decimal_length;

const TOO_LONG: usize = 1 << 63;

// The length of two texts, one after the other.
pub fn sum(a: usize, b: usize) -> usize
    ensures { result ≡ capped (a + b) }
{
    a.saturating_add(b).min(TOO_LONG)
}

// The length of a number's text, where `lengths` has those of the propositions that are made; for a number that has
// none it is that of `false`.
pub fn formula_length(lengths: &[usize], n: u16) -> usize
    ensures { (made : List Proposition) → lengths.now ≡ map length_of made → result ≡ length_of (among made n) }
{
    lengths.get(n as usize).copied().unwrap_or(5)
}

// "principal 7 is p7"
pub fn principal_length(k: Principal) -> usize
    ensures { result ≡ capped (length (principal_text k.0)) }
{
    sum(1, decimal_length(k.0 as usize))
}

// The length of the texts of two operands.
fn operands_length(lengths: &[usize], a: Formula, b: Formula) -> usize
    ensures { (made : List Proposition) → lengths.now ≡ map length_of made
        → result ≡ capped (length_of (among made a.0) + length_of (among made b.0)) }
{
    sum(formula_length(lengths, a.0), formula_length(lengths, b.0))
}

// The length of an entry's text. The brackets, the kind's word and the blanks beside it have 11 bytes for implies, 7
// for and, 6 for or, 8 for says.
fn entry_length(lengths: &[usize], entry: Entry) -> usize
    ensures { (made : List Proposition) → lengths.now ≡ map length_of made → result ≡ length_of (proposition made entry) }
{
    match entry {
        Entry::Atom(a) => sum(1, decimal_length(a.0 as usize)),
        Entry::Implies(a, b) => sum(11, operands_length(lengths, a, b)),
        Entry::And(a, b) => sum(7, operands_length(lengths, a, b)),
        Entry::Or(a, b) => sum(6, operands_length(lengths, a, b)),
        Entry::Says(k, a) => sum(8, sum(principal_length(k), formula_length(lengths, a.0))),
        Entry::False | Entry::IllFormed => 5,
    }
}

// Writes the length of each number's text, as far as there is room. An entry looks its operands up among those before
// it, so one that isn't lower has the length of `false`, as it is spelled.
#[tactic(auto, using(table::proofs::Entries::length_entries))]
pub fn measure_formulas(table: Table, lengths: &mut [usize])
    ensures { lengths.new ≡ written lengths.old (lengths_of (entries_of table.entry)) }
{
    for i in 0..lengths.len().min(table.len()) {
        lengths[i] = entry_length(&lengths[..i], take_apart(table.heads[i], table.seconds[i]));
    }
}
