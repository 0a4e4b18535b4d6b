// 01's table of rules, a function a row: what the rule needs of the goal and of the named formula, and what it leaves
// to prove. Above each stands its row: code, name, goal below, named hypothesis, premises in order. A rule that takes
// any goal isn't told which.
ghost use Rattle.std.specs.Prelude.{◌≡◌, []};
ghost use Rattle.table.specs.Tests.{entries_of};
ghost use Rattle.steps.specs.Rules as Rules;
ghost use Rattle.steps.specs.Figure1.{same};
ghost use Rattle.premises.specs.Premises.{opened};

use deputies_check::speaks::speaks_for;
use premises::premises::Premises;
use steps::goal::Goal;
use table::entry::Entry;
use table::lent::Table;

// 0 | init | an atom's truth | that atom | none
pub(crate) fn init(table: Table, n: u16, goal: Goal) -> Premises
    ensures { opened goal result ≡ Rules.init same (entries_of table.entry) n goal }
{
    let Goal::True(f) = goal else {
        return Premises::Refused(13);
    };
    let Entry::Atom(_) = table.entry_at(f.0) else {
        return Premises::Refused(13);
    };
    if n == f.0 {
        Premises::Closed
    } else {
        Premises::Refused(13)
    }
}

// 1 | affirm | K affirms A | none | A is true
pub(crate) fn affirm(goal: Goal) -> Premises
    ensures { opened goal result ≡ Rules.affirm same [] goal }
{
    let Goal::Affirms(_, a) = goal else {
        return Premises::Refused(13);
    };
    Premises::Truth(a)
}

// 2 | implies right | A implies B | none | B, with A added
pub(crate) fn implies_right(table: Table, goal: Goal) -> Premises
    ensures { opened goal result ≡ Rules.implies_right same (entries_of table.entry) goal }
{
    let Goal::True(f) = goal else {
        return Premises::Refused(13);
    };
    let Entry::Implies(a, b) = table.entry_at(f.0) else {
        return Premises::Refused(13);
    };
    Premises::TruthWith(b, a)
}

// 3 | implies left | any | A implies B | A is true; the goal, with B added
pub(crate) fn implies_left(table: Table, n: u16) -> Premises
    ensures { (g : Goal) → opened g result ≡ Rules.implies_left same (entries_of table.entry) n g }
{
    let Entry::Implies(a, b) = table.entry_at(n) else {
        return Premises::Refused(13);
    };
    Premises::TruthThenWith(a, b)
}

// 4 | false left | any | false | none
pub(crate) fn false_left(table: Table, n: u16) -> Premises
    ensures { (g : Goal) → opened g result ≡ Rules.false_left same (entries_of table.entry) n g }
{
    let Entry::False = table.entry_at(n) else {
        return Premises::Refused(13);
    };
    Premises::Closed
}

// 5 | and right | A and B | none | A; B
pub(crate) fn and_right(table: Table, goal: Goal) -> Premises
    ensures { opened goal result ≡ Rules.and_right same (entries_of table.entry) goal }
{
    let Goal::True(f) = goal else {
        return Premises::Refused(13);
    };
    let Entry::And(a, b) = table.entry_at(f.0) else {
        return Premises::Refused(13);
    };
    Premises::BothTruths(a, b)
}

// 6 | and left | any | A and B | the goal, with A and B added
pub(crate) fn and_left(table: Table, n: u16) -> Premises
    ensures { (g : Goal) → opened g result ≡ Rules.and_left same (entries_of table.entry) n g }
{
    let Entry::And(a, b) = table.entry_at(n) else {
        return Premises::Refused(13);
    };
    Premises::WithBoth(a, b)
}

// 7 | or right first | A or B | none | A
pub(crate) fn or_right_first(table: Table, goal: Goal) -> Premises
    ensures { opened goal result ≡ Rules.or_right_first same (entries_of table.entry) goal }
{
    let Goal::True(f) = goal else {
        return Premises::Refused(13);
    };
    let Entry::Or(a, _) = table.entry_at(f.0) else {
        return Premises::Refused(13);
    };
    Premises::Truth(a)
}

// 8 | or right second | A or B | none | B
pub(crate) fn or_right_second(table: Table, goal: Goal) -> Premises
    ensures { opened goal result ≡ Rules.or_right_second same (entries_of table.entry) goal }
{
    let Goal::True(f) = goal else {
        return Premises::Refused(13);
    };
    let Entry::Or(_, b) = table.entry_at(f.0) else {
        return Premises::Refused(13);
    };
    Premises::Truth(b)
}

// 9 | or left | any | A or B | the goal with A added; the goal with B added
pub(crate) fn or_left(table: Table, n: u16) -> Premises
    ensures { (g : Goal) → opened g result ≡ Rules.or_left same (entries_of table.entry) n g }
{
    let Entry::Or(a, b) = table.entry_at(n) else {
        return Premises::Refused(13);
    };
    Premises::WithEither(a, b)
}

// 10 | says right | K says A | none | K affirms A
pub(crate) fn says_right(table: Table, goal: Goal) -> Premises
    ensures { opened goal result ≡ Rules.says_right same (entries_of table.entry) goal }
{
    let Goal::True(f) = goal else {
        return Premises::Refused(13);
    };
    let Entry::Says(k, a) = table.entry_at(f.0) else {
        return Premises::Refused(13);
    };
    Premises::Affirmation(k, a)
}

// 11 | says left | K affirms C | K says A, the same K | the same goal, with A added
pub(crate) fn says_left(table: Table, n: u16, goal: Goal) -> Premises
    ensures { opened goal result ≡ Rules.says_left same (entries_of table.entry) n goal }
{
    let Entry::Says(k, a) = table.entry_at(n) else {
        return Premises::Refused(13);
    };
    let Goal::Affirms(l, _) = goal else {
        return Premises::Refused(14);
    };
    if speaks_for(k, l) {
        Premises::With(a)
    } else {
        Premises::Refused(14)
    }
}
