// The goal of each step of a proof whose steps have passed their tests, found by one pass over the steps: no hypotheses
// are looked up again.
ghost use Rattle.std.specs.Prelude.{◌≡◌};
ghost use Rattle.basics.specs.Written.{written};
ghost use Rattle.table.specs.Tests.{entries_of};
ghost use Rattle.premises.specs.Premises.{opened};
ghost use Rattle.goals.specs.Goals.{kept_as, goals_of, numbers_of, affirms_of};
ghost use Rattle.goals.specs.Next.{is_refused};

use crate::kept::{Kept, goal_at};
use basics::limits::MOST_DEPTH;
use basics::list::put;
use basics::word::{lower, upper};
use premises::premise_count::premise_count;
use premises::premises::{Premises, first_premise, last_premise};
use rules::step::apply;
use steps::goal::Goal;
use table::lent::Table;

// Keeps the goal of a premise, where the conclusion's is kept by this number.
fn keep(number: u16, goal: Goal) -> Kept
    ensures { result ≡ kept_as number goal }
{
    match goal {
        Goal::True(f) => Kept {
            number: f.0,
            affirms: 0,
        },
        Goal::Affirms(_, _) => Kept { number, affirms: 1 },
    }
}

// Whether a step is refused.
fn is_refused(premises: Premises) -> bool
    ensures { (g : Goal) → result ≡ is_refused (opened g premises) }
{
    matches!(premises, Premises::Refused(_))
}

// Writes the goal of each step, in two words, from the start of two lists, as far as each goes (lists of unlike length
// are promised, so they are two). The goals of second premises wait until the first is proved.
pub fn write_goals(table: Table, goal: u16, steps: &[u16], numbers: &mut [u16], affirms: &mut [u16])
    ensures numbers_after { numbers.new ≡ written numbers.old (numbers_of (goals_of (entries_of table.entry) steps.now goal)) }
    ensures affirms_after { affirms.new ≡ written affirms.old (affirms_of (goals_of (entries_of table.entry) steps.now goal)) }
{
    let mut kept = Kept {
        number: goal,
        affirms: 0,
    };
    let mut later = [kept; MOST_DEPTH];
    let mut waiting = 0;
    for (i, &word) in steps.iter().enumerate() {
        put(numbers, i, kept.number);
        put(affirms, i, kept.affirms);
        let code = upper(word);
        let here = goal_at(table, kept.number, kept.affirms);
        // 12 has passed, so what the word names is held.
        let premises = apply(table, true, code, lower(word), here);
        if is_refused(premises) {
            return;
        }
        let count = premise_count(code);
        if count == 0 {
            if waiting == 0 {
                return;
            }
            waiting -= 1;
            kept = later[waiting];
        } else {
            // Where there is one, it is both.
            let first = first_premise(premises, here);
            let last = last_premise(premises, here);
            if count > 1 {
                if waiting == MOST_DEPTH {
                    return;
                }
                later[waiting] = keep(kept.number, last.goal);
                waiting += 1;
            }
            kept = keep(kept.number, first.goal);
        }
    }
}
