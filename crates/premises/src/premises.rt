// What one step leaves to prove: the premises of a rule by their shape, with the operands that they are made of. In the
// machine's words it is `opened` of specs/Premises.antt. How many there are is for `premise_count` to say.
ghost use Rattle.std.specs.Prelude.{◌≡◌};
ghost use Rattle.premises.specs.Premises.{opened, first_of, last_of};

use steps::goal::Goal;
use steps::opened::{Added, Premise};
use table::entry::{Formula, Principal};

#[derive(Clone, Copy)]
pub enum Premises {
    // Refused with a number, as in `Refusal`.
    Refused(u8),
    // None.
    Closed,
    // A truth.
    Truth(Formula),
    // The truth of the first, with the second added.
    TruthWith(Formula, Formula),
    // The same goal with one formula added, or with both.
    With(Formula),
    WithBoth(Formula, Formula),
    // The truth of the first; then the same goal with the second added.
    TruthThenWith(Formula, Formula),
    // Two truths.
    BothTruths(Formula, Formula),
    // The same goal with the first added; then with the second.
    WithEither(Formula, Formula),
    // An affirmation.
    Affirmation(Principal, Formula),
}

// The premise of a goal alone, or with hypotheses added.
fn premise(goal: Goal, added: Added) -> Premise
    ensures { result ≡ record { goal = goal; added = added } }
{
    Premise { goal, added }
}

// The first premise, for this goal. Where there is none, the goal alone.
pub fn first_premise(premises: Premises, goal: Goal) -> Premise
    ensures { result ≡ first_of goal (opened goal premises) }
{
    match premises {
        Premises::Refused(_) | Premises::Closed => premise(goal, Added::Nothing),
        Premises::Truth(a) | Premises::TruthThenWith(a, _) | Premises::BothTruths(a, _) => {
            premise(Goal::True(a), Added::Nothing)
        }
        Premises::TruthWith(b, a) => premise(Goal::True(b), Added::One(a)),
        Premises::With(a) | Premises::WithEither(a, _) => premise(goal, Added::One(a)),
        Premises::WithBoth(a, b) => premise(goal, Added::Two(a, b)),
        Premises::Affirmation(k, a) => premise(Goal::Affirms(k, a), Added::Nothing),
    }
}

// The last premise: of two the second, else the first.
pub fn last_premise(premises: Premises, goal: Goal) -> Premise
    ensures { result ≡ last_of goal (opened goal premises) }
{
    match premises {
        Premises::TruthThenWith(_, b) | Premises::WithEither(_, b) => premise(goal, Added::One(b)),
        Premises::BothTruths(_, b) => premise(Goal::True(b), Added::Nothing),
        _ => first_premise(premises, goal),
    }
}
