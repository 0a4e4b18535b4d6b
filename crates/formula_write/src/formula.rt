// The text of a formula, from the number of its entry. "The sentence writer recurs on operand numbers, which fall below
// the entry's own, and stops when the lent bytes are used up." (01) A formula's text can be far longer than any bytes
// that are lent, so the room is looked at first. Only numbers are kept on the way down: it can be 4,096 deep.
ghost use Rattle.std.specs.Prelude.{◌≡◌, ◌++◌};
ghost use Rattle.basics.specs.Written.{written_at};
ghost use Rattle.text.specs.Decimal.{decimal};
ghost use Rattle.text.specs.Fill.{place_after};
ghost use Rattle.table.specs.Tests.{entries_of};
ghost use Rattle.table.specs.Spelled.{spell};
ghost use Rattle.sentences.specs.Formula.{proposition_text, principal_text};
ghost use Rattle.formula_write.specs.Operand.{operand_text, left_text, word_text, right_text};

use table::entry::{Entry, Formula, Principal};
use table::lent::Table;
use text::decimal::fill_decimal;
use text::fill::fill;

// "Atom 0 is a0, principal 7 is p7"
fn fill_numbered(letter: &[u8], number: u16, text: &mut [u8], at: usize) -> usize
    ensures text_after { text.new ≡ written_at text.old at (letter.now ++ decimal number) }
    ensures value { result ≡ place_after text.old at (letter.now ++ decimal number) }
{
    let end = fill(text, at, letter);
    fill_decimal(text, end, number as usize)
}

// The name of a principal.
pub fn fill_principal(k: Principal, text: &mut [u8], at: usize) -> usize
    ensures text_after { text.new ≡ written_at text.old at (principal_text k.0) }
    ensures value { result ≡ place_after text.old at (principal_text k.0) }
{
    fill_numbered(b"p", k.0, text, at)
}

// An operand of entry n. One that isn't lower is spelled as false.
#[cycle(formula)]
fn fill_operand(table: &Table, n: u16, f: Formula, text: &mut [u8], at: usize) -> usize
    ensures text_after { text.new ≡ written_at text.old at (operand_text (entries_of table.now) n f.0) }
    ensures value { result ≡ place_after text.old at (operand_text (entries_of table.now) n f.0) }
{
    let number = f.0;
    if number < n {
        return fill_formula(table, number, text, at);
    }
    fill(text, at, b"false")
}

// What stands before the word of a compound entry n: its first operand, or the principal.
#[cycle(formula)]
fn fill_left(table: &Table, n: u16, entry: Entry, text: &mut [u8], at: usize) -> usize
    ensures text_after { text.new ≡ written_at text.old at (left_text (entries_of table.now) n entry) }
    ensures value { result ≡ place_after text.old at (left_text (entries_of table.now) n entry) }
{
    match entry {
        Entry::Implies(a, _) | Entry::And(a, _) | Entry::Or(a, _) => {
            fill_operand(table, n, a, text, at)
        }
        Entry::Says(k, _) => fill_principal(k, text, at),
        _ => at,
    }
}

// "its kind's word (implies, and, or, says) in the middle"
fn fill_word(entry: Entry, text: &mut [u8], at: usize) -> usize
    ensures text_after { text.new ≡ written_at text.old at (word_text entry) }
    ensures value { result ≡ place_after text.old at (word_text entry) }
{
    match entry {
        Entry::Implies(_, _) => fill(text, at, b" implies "),
        Entry::And(_, _) => fill(text, at, b" and "),
        Entry::Or(_, _) => fill(text, at, b" or "),
        Entry::Says(_, _) => fill(text, at, b" says "),
        _ => at,
    }
}

// What stands after the word of a compound entry n.
#[cycle(formula)]
fn fill_right(table: &Table, n: u16, entry: Entry, text: &mut [u8], at: usize) -> usize
    ensures text_after { text.new ≡ written_at text.old at (right_text (entries_of table.now) n entry) }
    ensures value { result ≡ place_after text.old at (right_text (entries_of table.now) n entry) }
{
    match entry {
        Entry::Implies(_, b) | Entry::And(_, b) | Entry::Or(_, b) | Entry::Says(_, b) => {
            fill_operand(table, n, b, text, at)
        }
        _ => at,
    }
}

// Writes the text of a number's formula from the place `at` on, as far as there is room, and gives the place after it.
// All compound kinds share one arm, so that the functions above are compiled into this one and a level of the recursion
// is one small frame. The table goes by reference: by value each level copies it, and nested operands take some 7 %
// longer and nearly twice the stack.
#[cycle(formula)]
pub fn fill_formula(table: &Table, n: u16, text: &mut [u8], at: usize) -> usize
    ensures text_after { text.new ≡ written_at text.old at (proposition_text (spell (entries_of table.now) n)) }
    ensures value { result ≡ place_after text.old at (proposition_text (spell (entries_of table.now) n)) }
{
    if at >= text.len() {
        return at;
    }
    let entry = table.entry_at(n);
    match entry {
        Entry::Atom(a) => fill_numbered(b"a", a.0, text, at),
        Entry::False | Entry::IllFormed => fill(text, at, b"false"),
        _ => {
            let mut end = fill(text, at, b"(");
            end = fill_left(table, n, entry, text, end);
            end = fill_word(entry, text, end);
            end = fill_right(table, n, entry, text, end);
            fill(text, end, b")")
        }
    }
}
