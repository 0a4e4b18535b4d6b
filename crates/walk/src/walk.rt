// The walk: "The state of the walk is handed on from step to step: next word, depth, hypotheses held." (01) One
// function checks a truth, one an affirmation, which call each other: 01 names this form. The code of a step says how
// many premises it has (`premise_count`). Each function goes on with a rule's last premise in its loop, and calls
// itself or the other for a first premise and at rules 10, 1 and 3, always, while the words that are left fall.
ghost use Rattle.std.specs.Prelude.{◌≡◌, ◌+◌, ◌<◌, ◌^◌};
ghost use Rattle.table.specs.Tests.{entries};
ghost use Rattle.steps.specs.Obligation.{added as added_by};
ghost use Rattle.hypotheses.specs.Slots.{held_all, count_all, released};
ghost use Rattle.walk.specs.Walks as Walks;

use basics::word::upper;
use hypotheses::hypotheses::{hold, release};
use premises::premise_count::premise_count;
use premises::premises::{Premises, first_premise, last_premise};
use rules::step::{open_affirmation, open_truth};
use steps::goal::Goal;
use steps::opened::Added;
use table::lent::Table;

// Holds what a premise adds. Answers how many hypotheses there are then.
#[tactic(auto, unfolding(hypotheses::specs::Slots::held_all, hypotheses::specs::Slots::count_all))]
fn hold_added(slots: &mut [u16], held: usize, added: Added) -> usize
    ensures value { result ≡ count_all slots.old held (added_by added) }
    ensures slots_after { slots.new ≡ held_all slots.old held (added_by added) }
{
    match added {
        Added::Nothing => held,
        Added::One(a) => hold(slots, held, a),
        Added::Two(a, b) => {
            let one = hold(slots, held, a);
            hold(slots, one, b)
        }
    }
}

// Once the first premise is proved, takes back what it added, at the places from `held` to before `more`, and holds
// what the last adds: no "carrying an added one into the second premise" (01). Answers how many hypotheses there are
// then.
fn hold_last(slots: &mut [u16], held: usize, more: usize, added: Added) -> usize
    ensures value { result ≡ count_all (released slots.old held more) held (added_by added) }
    ensures slots_after { slots.new ≡ held_all (released slots.old held more) held (added_by added) }
{
    release(slots, held, more);
    hold_added(slots, held, added)
}

// The goal, the place of the next word, the depth of its step, and the count of hypotheses held.
#[derive(Clone, Copy)]
pub(crate) struct Walk {
    pub goal: Goal,
    pub next: usize,
    pub depth: usize,
    pub held: usize,
}

// The walk after the last word of a proof of its goal, or a refusal. No `Result<Walk, Refusal>`: with that a long proof
// takes an eighth longer.
#[derive(Clone, Copy)]
pub(crate) enum Walked {
    Done(Walk),
    Refused { number: u8, place: usize },
}

impl Walk {
    // The walk of a premise that begins at a word: one deeper, with so many hypotheses.
    fn onward(self, goal: Goal, next: usize, held: usize) -> Walk
        requires { self.depth + 1 < 2 ^ 64 }
        ensures { result ≡ Walks.onward self goal next held }
    {
        Walk {
            goal,
            next,
            depth: self.depth + 1,
            held,
        }
    }

    // A refusal at the walk's word.
    fn refused(self, number: u8) -> Walked
        ensures { result ≡ Walked.Refused number self.next }
    {
        Walked::Refused {
            number,
            place: self.next,
        }
    }

    // The walk once its goal is proved up to a word: what was held since the count `held` is taken back.
    fn proved(self, slots: &mut [u16], next: usize, depth: usize, held: usize) -> Walked
        ensures value { result ≡ Walked.Done (record { goal = self.goal; next = next; depth = depth; held = held }) }
        ensures slots_after { slots.new ≡ released slots.old held self.held }
    {
        release(slots, held, self.held);
        let goal = self.goal;
        Walked::Done(Walk {
            goal,
            next,
            depth,
            held,
        })
    }

    // Checks a truth. Here and in `affirmation` heads and seconds stand apart: with `Table`, by value or by reference,
    // a proof of what many say takes a twentieth longer.
    #[cycle(walk)]
    pub(crate) fn truth(
        self,
        heads: &[u16],
        seconds: &[u16],
        steps: &[u16],
        slots: &mut [u16],
    ) -> Walked
        requires truth { Walks.IsTruth self.goal }
        requires ready { Walks.Ready (entries heads.now seconds.now) slots.old self.held }
        ensures result_value { Walks.verdict_of result ≡ Walks.run_from (entries heads.now seconds.now) steps.now slots.old self }
        ensures left { Walks.Left self slots.old result slots.new }
    {
        let Goal::True(mut f) = self.goal else {
            return self.refused(13);
        };
        // With `self` alone the compiler doesn't see which kind the goal is, and a long proof takes an eighth longer.
        let mut walk = Walk {
            goal: Goal::True(f),
            ..self
        };
        // One place each for the walk of a premise and for what it comes to: else a frame has them once for each arm.
        let mut premise: Walk;
        let mut walked: Walked;
        loop {
            let here = walk.goal;
            let next = walk.next;
            let held = walk.held;
            if steps.len() <= next {
                return walk.refused(9);
            }
            let word = steps[next];
            let table = Table { heads, seconds };
            let premises = open_truth(table, slots, walk.depth, f, word);
            if let Premises::Refused(number) = premises {
                return walk.refused(number);
            }
            match premise_count(upper(word)) {
                // It closes.
                0 => {
                    return walk.proved(slots, next + 1, self.depth, self.held);
                }
                // It goes on with its one premise.
                1 => {
                    let last = last_premise(premises, here);
                    let more = hold_added(slots, held, last.added);
                    match last.goal {
                        Goal::True(a) => {
                            f = a;
                            walk = walk.onward(Goal::True(a), next + 1, more);
                        }
                        // Rule 10: an affirmation.
                        Goal::Affirms(_, _) => {
                            premise = walk.onward(last.goal, next + 1, more);
                            walked = premise.affirmation(heads, seconds, steps, slots);
                            let Walked::Done(after) = walked else {
                                return walked;
                            };
                            return premise.proved(slots, after.next, self.depth, self.held);
                        }
                    }
                }
                // "followed by all of its first premise, then its second" (01)
                _ => {
                    // Where a truth has two premises, both are truths.
                    let first = first_premise(premises, here);
                    let with_first = hold_added(slots, held, first.added);
                    premise = walk.onward(first.goal, next + 1, with_first);
                    walked = premise.truth(heads, seconds, steps, slots);
                    let Walked::Done(after) = walked else {
                        return walked;
                    };
                    let last = last_premise(premises, here);
                    let Goal::True(a) = last.goal else {
                        return walk.refused(13);
                    };
                    let with_last = hold_last(slots, held, with_first, last.added);
                    f = a;
                    walk = walk.onward(Goal::True(a), after.next, with_last);
                }
            }
        }
    }

    // Checks an affirmation.
    #[cycle(walk)]
    fn affirmation(self, heads: &[u16], seconds: &[u16], steps: &[u16], slots: &mut [u16]) -> Walked
        requires affirmation { Walks.IsAffirmation self.goal }
        requires ready { Walks.Ready (entries heads.now seconds.now) slots.old self.held }
        ensures result_value { Walks.verdict_of result ≡ Walks.run_from (entries heads.now seconds.now) steps.now slots.old self }
        ensures left { Walks.Left self slots.old result slots.new }
    {
        let Goal::Affirms(mut k, mut f) = self.goal else {
            return self.refused(13);
        };
        let mut walk = Walk {
            goal: Goal::Affirms(k, f),
            ..self
        };
        // One place each for the walk of a premise and for what it comes to: else a frame has them once for each arm.
        let mut premise: Walk;
        let mut walked: Walked;
        loop {
            let here = walk.goal;
            let next = walk.next;
            let held = walk.held;
            if steps.len() <= next {
                return walk.refused(9);
            }
            let word = steps[next];
            let table = Table { heads, seconds };
            let premises = open_affirmation(table, slots, walk.depth, k, f, word);
            if let Premises::Refused(number) = premises {
                return walk.refused(number);
            }
            match premise_count(upper(word)) {
                // It closes.
                0 => {
                    return walk.proved(slots, next + 1, self.depth, self.held);
                }
                // It goes on with its one premise.
                1 => {
                    let last = last_premise(premises, here);
                    let more = hold_added(slots, held, last.added);
                    match last.goal {
                        Goal::Affirms(l, a) => {
                            k = l;
                            f = a;
                            walk = walk.onward(Goal::Affirms(l, a), next + 1, more);
                        }
                        // Rule 1: a truth.
                        Goal::True(_) => {
                            premise = walk.onward(last.goal, next + 1, more);
                            walked = premise.truth(heads, seconds, steps, slots);
                            let Walked::Done(after) = walked else {
                                return walked;
                            };
                            return premise.proved(slots, after.next, self.depth, self.held);
                        }
                    }
                }
                // "followed by all of its first premise, then its second" (01)
                _ => {
                    let first = first_premise(premises, here);
                    let with_first = hold_added(slots, held, first.added);
                    premise = walk.onward(first.goal, next + 1, with_first);
                    match first.goal {
                        // Rule 3: the first premise is always a truth.
                        Goal::True(_) => {
                            walked = premise.truth(heads, seconds, steps, slots);
                        }
                        Goal::Affirms(_, _) => {
                            walked = premise.affirmation(heads, seconds, steps, slots);
                        }
                    }
                    let Walked::Done(after) = walked else {
                        return walked;
                    };
                    let last = last_premise(premises, here);
                    // Where an affirmation has two premises, the last is an affirmation.
                    let Goal::Affirms(l, a) = last.goal else {
                        return walk.refused(13);
                    };
                    let with_last = hold_last(slots, held, with_first, last.added);
                    k = l;
                    f = a;
                    walk = walk.onward(Goal::Affirms(l, a), after.next, with_last);
                }
            }
        }
    }
}
