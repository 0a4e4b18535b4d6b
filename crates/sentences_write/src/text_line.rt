// The line of a step: its number, the rule's name, the formula that it names, if any, the word for, and the goal. Each
// function writes from the place `at` on, as far as there is room, and gives the place after what it wrote.
ghost use Rattle.std.specs.Prelude.{◌≡◌};
ghost use Rattle.basics.specs.Written.{written_at};
ghost use Rattle.text.specs.Fill.{place_after};
ghost use Rattle.table.specs.Tests.{entries_of};
ghost use Rattle.steps.specs.Carried.{judgment};
ghost use Rattle.goals.specs.Kept.{line_at};
ghost use Rattle.sentences.specs.Formula.{goal_text};
ghost use Rattle.sentences.specs.Sentences.{line_text};
ghost use Rattle.steps.specs.Naming.{is_naming};
ghost use Rattle.sentences_write.specs.NamedAt.{named_at};

use crate::name::rule_name;
use basics::word::{lower, upper};
use formula_write::formula::{fill_formula, fill_principal};
use steps::goal::Goal;
use table::lent::Table;
use text::decimal::fill_decimal;
use text::fill::fill;

// Whether the rule of a code names a formula: init, implies left, false left, and left, or left and says left do. (The
// code is a number, as in `rule_name`.)
#[tactic(auto, unfolding(steps::specs::Naming::is_naming))]
pub(crate) fn is_naming(code: u16) -> bool
    ensures { result ≡ is_naming code }
{
    matches!(code, 0 | 3 | 4 | 6 | 9 | 11)
}

// A blank and the formula of number n, where the rule of the code names one.
fn fill_named(table: Table, code: u16, n: u16, text: &mut [u8], at: usize) -> usize
    ensures text_after { text.new ≡ written_at text.old at (named_at (entries_of table.entry) code n) }
    ensures value { result ≡ place_after text.old at (named_at (entries_of table.entry) code n) }
{
    if is_naming(code) {
        let end = fill(text, at, b" ");
        return fill_formula(&table, n, text, end);
    }
    at
}

// A truth's formula, or "p7 affirms a0".
fn fill_goal(table: Table, goal: Goal, text: &mut [u8], at: usize) -> usize
    ensures text_after { text.new ≡ written_at text.old at (goal_text (judgment (entries_of table.entry) goal)) }
    ensures value { result ≡ place_after text.old at (goal_text (judgment (entries_of table.entry) goal)) }
{
    match goal {
        Goal::True(f) => fill_formula(&table, f.0, text, at),
        Goal::Affirms(k, f) => {
            let mut end = fill_principal(k, text, at);
            end = fill(text, end, b" affirms ");
            fill_formula(&table, f.0, text, end)
        }
    }
}

// The line of step i, for this word at this goal.
pub(crate) fn fill_line(
    table: Table,
    i: usize,
    word: u16,
    goal: Goal,
    text: &mut [u8],
    at: usize,
) -> usize
    ensures text_after { text.new ≡ written_at text.old at (line_text i (line_at (entries_of table.entry) word goal)) }
    ensures value { result ≡ place_after text.old at (line_text i (line_at (entries_of table.entry) word goal)) }
{
    let code = upper(word);
    let named = lower(word);
    let mut end = fill_decimal(text, at, i);
    end = fill(text, end, b" ");
    end = fill(text, end, rule_name(code));
    end = fill_named(table, code, named, text, end);
    end = fill(text, end, b" for ");
    end = fill_goal(table, goal, text, end);
    fill(text, end, b"\n")
}
