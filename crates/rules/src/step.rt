// Tests 10 to 14 for one step, in this order.
//
// The compiler takes a function that is called at one place into its caller, and leaves one that is called at two
// outside. The walk has one place for truths and one for affirmations: with one function for both, the walk of a long
// proof took two fifths longer. So what the two share is always taken in.
ghost use Rattle.std.specs.Prelude.{◌≡◌, Bool, length, get_or, ltb};
ghost use Rattle.basics.specs.Choice.{both};
ghost use Rattle.table.specs.Tests.{entries_of};
ghost use Rattle.steps.specs.Step.{rules, unknown};
ghost use Rattle.steps.specs.Figure1 as Figure1;
ghost use Rattle.steps.specs.Figure1.{same};
ghost use Rattle.hypotheses.specs.Slots.{is_held, shown};
ghost use Rattle.premises.specs.Premises.{opened};
ghost use Rattle.rules.specs.Tested.{tested};

use crate::rules;
use basics::limits::MOST_DEPTH;
use basics::word::{lower, upper};
use hypotheses::hypotheses::is_held;
use premises::premises::Premises;
use steps::goal::Goal;
use table::entry::{Formula, Principal};
use table::lent::Table;

// Whether a number has an entry. By both lengths: with `table.len()` a long proof takes a twentieth longer.
#[tactic(auto, using(table::proofs::Entries::length_entries))]
fn is_entry(table: Table, n: u16) -> bool
    ensures { result ≡ ltb n (length (entries_of table.entry)) }
{
    let i = n as usize;
    i < table.heads.len() && i < table.seconds.len()
}

// "12. The named formula isn't a hypothesis here; a number of F or more never is."
fn is_hypothesis(table: Table, slots: &[u16], n: u16) -> bool
    ensures { result ≡ both (ltb n (length (entries_of table.entry))) (is_held slots.now n) }
{
    is_entry(table, n) && is_held(slots, n)
}

// The rule of a code, in 01's order, after 11 and 12. "11. The code is 12 or more, or a rule that
// names nothing has a part other than 0." Whether n is held, test 12, only a rule that names a formula asks: where each
// did, a long proof took a twelfth longer.
#[inline(always)]
fn choose<H: Fn() -> bool>(table: Table, held: H, code: u16, n: u16, goal: Goal) -> Premises
    requires { H.pre held }
    ensures { (h : Bool) → ((r : Bool) → H.post held r → r ≡ h) → opened goal result ≡ tested (get_or (rules same (entries_of table.entry)) code unknown) h n goal }
{
    match code {
        0 if held() => rules::init(table, n, goal),
        1 if n == 0 => rules::affirm(goal),
        2 if n == 0 => rules::implies_right(table, goal),
        3 if held() => rules::implies_left(table, n),
        4 if held() => rules::false_left(table, n),
        5 if n == 0 => rules::and_right(table, goal),
        6 if held() => rules::and_left(table, n),
        7 if n == 0 => rules::or_right_first(table, goal),
        8 if n == 0 => rules::or_right_second(table, goal),
        9 if held() => rules::or_left(table, n),
        10 if n == 0 => rules::says_right(table, goal),
        11 if held() => rules::says_left(table, n, goal),
        0 | 3 | 4 | 6 | 9 | 11 => Premises::Refused(12),
        _ => Premises::Refused(11),
    }
}

// The same for callers that have answered 12: they say whether n is held. Who makes test 12 here says no of a number of
// F or more (`TestedIsApplied`); where it has passed, yes is right. The code stays a number: the contract answers for
// each, 12 and more too.
pub fn apply(table: Table, held: bool, code: u16, n: u16, goal: Goal) -> Premises
    ensures { opened goal result ≡ tested (get_or (rules same (entries_of table.entry)) code unknown) held n goal }
{
    choose(table, || held, code, n, goal)
}

// What a step word leaves to prove of a goal at a depth, with the hypotheses that the slots show.
#[inline(always)]
#[tactic(auto, using(crate::proofs::Tests::too_deep))]
fn open(table: Table, slots: &[u16], depth: usize, goal: Goal, word: u16) -> Premises
    ensures { opened goal result ≡ Figure1.step (entries_of table.entry) word (record { hypotheses = shown slots.now; goal = goal; depth = depth }) }
{
    if MOST_DEPTH < depth {
        return Premises::Refused(10);
    }
    let n = lower(word);
    let held = || is_hypothesis(table, slots, n);
    choose(table, held, upper(word), n, goal)
}

// The same for the truth of f.
pub fn open_truth(table: Table, slots: &[u16], depth: usize, f: Formula, word: u16) -> Premises
    ensures { opened (Goal.True f) result ≡ Figure1.step (entries_of table.entry) word (record { hypotheses = shown slots.now; goal = Goal.True f; depth = depth }) }
{
    open(table, slots, depth, Goal::True(f), word)
}

// The same for an affirmation of f by k.
pub fn open_affirmation(
    table: Table,
    slots: &[u16],
    depth: usize,
    k: Principal,
    f: Formula,
    word: u16,
) -> Premises
    ensures { opened (Goal.Affirms k f) result ≡ Figure1.step (entries_of table.entry) word (record { hypotheses = shown slots.now; goal = Goal.Affirms k f; depth = depth }) }
{
    open(table, slots, depth, Goal::Affirms(k, f), word)
}
