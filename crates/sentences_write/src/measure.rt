// The length of the whole text, told before any of it is written: "A refusal .. changes nothing that is lent" (01). Its
// formulas are measured before (`length`), and it stops growing where their lengths do.
ghost use Rattle.std.specs.Prelude.{◌≤◌, ◌≡◌, List, length};
ghost use Rattle.basics.specs.Limits.{most_formulas};
ghost use Rattle.table.specs.declared.entry.Entry.{Entry};
ghost use Rattle.table.specs.Tests.{entries_of};
ghost use Rattle.steps.specs.Carried.{judgment};
ghost use Rattle.goals.specs.Kept.{line_at, lines_at};
ghost use Rattle.sentences.specs.Formula.{goal_text};
ghost use Rattle.sentences.specs.Sentences.{line_text, sentences_from};
ghost use Rattle.formula_write.specs.Length.{capped, lengths_of, Holds};
ghost use Rattle.sentences_write.specs.NamedAt.{named_at};

use crate::name::rule_name;
use crate::text_line::is_naming;
use basics::limits::MOST_FORMULAS;
use basics::word::{lower, upper};
use formula_write::length::{formula_length, measure_formulas, principal_length, sum};
use goals::kept::goal_at;
use steps::goal::Goal;
use table::lent::Table;
use text::decimal::decimal_length;

// A blank and the formula of number n, where the rule of the code names one.
fn named_length(lengths: &[usize], code: u16, n: u16) -> usize
    ensures { (es : List Entry) → lengths.now ≡ lengths_of es → result ≡ capped (length (named_at es code n)) }
{
    if is_naming(code) {
        return sum(1, formula_length(lengths, n));
    }
    0
}

// A truth's formula, or "p7 affirms a0": " affirms " has 9 bytes.
fn goal_length(lengths: &[usize], goal: Goal) -> usize
    ensures { (es : List Entry) → lengths.now ≡ lengths_of es → result ≡ capped (length (goal_text (judgment es goal))) }
{
    match goal {
        Goal::True(f) => formula_length(lengths, f.0),
        Goal::Affirms(k, f) => sum(principal_length(k), sum(9, formula_length(lengths, f.0))),
    }
}

// The line of step i. A blank, " for " and the line feed have 7 bytes.
fn line_length(lengths: &[usize], i: usize, word: u16, goal: Goal) -> usize
    ensures { (es : List Entry) → lengths.now ≡ lengths_of es → result ≡ capped (length (line_text i (line_at es word goal))) }
{
    let code = upper(word);
    let named = lower(word);
    let mut all = sum(decimal_length(i), 7);
    all = sum(all, rule_name(code).len());
    all = sum(all, named_length(lengths, code, named));
    sum(all, goal_length(lengths, goal))
}

// All lines, where `lengths` has those of the table's formulas and no more.
fn lines_length(
    table: Table,
    lengths: &[usize],
    steps: &[u16],
    numbers: &[u16],
    affirms: &[u16],
) -> usize
    requires { lengths.now ≡ lengths_of (entries_of table) }
    ensures { result ≡ capped (length (sentences_from 0 (lines_at (entries_of table.entry) steps.now numbers.now affirms.now))) }
{
    let mut all = 0;
    for (i, ((&word, &number), &affirms)) in steps.iter().zip(numbers).zip(affirms).enumerate() {
        let goal = goal_at(table, number, affirms);
        all = sum(all, line_length(lengths, i, word, goal));
    }
    all
}

// The length of what `fill_lines` writes, where the lengths hold those of the table's formulas.
fn text_length(
    table: Table,
    lengths: &[usize],
    steps: &[u16],
    numbers: &[u16],
    affirms: &[u16],
) -> usize
    requires { Holds (entries_of table) lengths.now }
    ensures { result ≡ capped (length (sentences_from 0 (lines_at (entries_of table.entry) steps.now numbers.now affirms.now))) }
{
    let count = table.heads.len().min(table.seconds.len());
    lines_length(table, &lengths[..count], steps, numbers, affirms)
}

// The same, with the formulas measured first.
pub(crate) fn whole_length(table: Table, steps: &[u16], numbers: &[u16], affirms: &[u16]) -> usize
    requires { length (entries_of table) ≤ most_formulas }
    ensures { result ≡ capped (length (sentences_from 0 (lines_at (entries_of table.entry) steps.now numbers.now affirms.now))) }
{
    let mut lengths = [0usize; MOST_FORMULAS];
    measure_formulas(table, &mut lengths);
    text_length(table, &lengths, steps, numbers, affirms)
}
