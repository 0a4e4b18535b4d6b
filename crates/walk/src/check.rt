// The check of proofs from one list of statements, one after another from the first of the step words that are lent.
ghost use Rattle.std.specs.Prelude.{◌≡◌, ◌≤◌, replicate};
ghost use Rattle.table.specs.Tests.{entries_of};
ghost use Rattle.steps.specs.Figure1.{proof_answer, proofs_answer};
ghost use Rattle.walk.specs.Walks as Walks;

use crate::walk::{Walk, Walked};
use basics::limits::MOST_FORMULAS;
use basics::refusal::Refusal;
use hypotheses::hypotheses::hold_all;
use steps::goal::Goal;
use table::entry::goal_formula;
use table::lent::Table;

// Formulas of a small table, and of one that is not large. The slots have a mark and a place for each formula and are
// cleared before use, which for a small file takes longer than all of its steps.
const FEW: usize = 64;

const MORE: usize = 512;

// Slots for so many, and for a table of any size.
const FEW_SLOTS: usize = 2 * FEW;

const MORE_SLOTS: usize = 2 * MORE;

const MOST_SLOTS: usize = 2 * MOST_FORMULAS;

// The machine's verdict on the step words from the first on, for the goal's truth from the statements, which the slots
// hold.
fn check_goal(
    table: Table,
    statements: &[u16],
    held: usize,
    slots: &mut [u16],
    goal: u16,
    steps: &[u16],
) -> Result<usize, Refusal>
    requires { Walks.Holding (entries_of table) statements.now slots.old held }
    ensures value { result ≡ proof_answer table.entry.heads.now table.entry.seconds.now statements.now goal steps.now }
    ensures left_held { Walks.LeftHeld slots.old held result slots.new }
{
    let walk = Walk {
        goal: Goal::True(goal_formula(goal)),
        next: 0,
        depth: 1,
        held,
    };
    match walk.truth(table.heads, table.seconds, steps, slots) {
        Walked::Done(after) => Ok(after.next),
        Walked::Refused { number, place } => Err(Refusal { number, place }),
    }
}

// The same for each goal in order: "The exchange check hands the tail of the step words, from the last proof's end, to
// the proof checker." (01) Places in a tail count from its start. What is left in the slots is free.
fn check_goals(
    table: Table,
    statements: &[u16],
    held: usize,
    slots: &mut [u16],
    goals: &[u16],
    steps: &[u16],
) -> Result<usize, Refusal>
    requires { Walks.Holding (entries_of table) statements.now slots.old held }
    ensures { result ≡ proofs_answer table.entry.heads.now table.entry.seconds.now statements.now goals.now steps.now }
{
    let mut at = 0;
    for &goal in goals {
        match check_goal(table, statements, held, slots, goal, &steps[at..]) {
            Ok(used) => at += used,
            Err(Refusal { number, place }) => {
                return Err(Refusal {
                    number,
                    place: at + place,
                });
            }
        }
    }
    Ok(at)
}

// The same in N slots, which have a mark for each formula that a step can name. It is never taken in, so that no check
// of a small table has the room for a large one's slots in its frame.
#[inline(never)]
fn check_in<const N: usize>(
    table: Table,
    statements: &[u16],
    goals: &[u16],
    steps: &[u16],
) -> Result<usize, Refusal>
    requires few { N ≤ 8192 }
    requires marks { Walks.Marks (entries_of table) (replicate N 0) }
    ensures { result ≡ proofs_answer table.entry.heads.now table.entry.seconds.now statements.now goals.now steps.now }
{
    let mut slots = [0u16; N];
    let held = hold_all(&mut slots, statements);
    check_goals(table, statements, held, &mut slots, goals, steps)
}

// The machine's verdict on the step words from the first on, for the truth of each goal from the statements: closed
// with the number of words used, or refused. Of 01's list it makes tests 9 to 14. Where 2 and 4 to 7 have passed,
// closed means proofs (ClosedAreDerivations). It is for the check of exchanges: the slots are cleared and the
// statements held once, not once a goal, so its time is linear in the words.
pub fn check_proofs(
    table: Table,
    statements: &[u16],
    goals: &[u16],
    steps: &[u16],
) -> Result<usize, Refusal>
    ensures { result ≡ proofs_answer table.entry.heads.now table.entry.seconds.now statements.now goals.now steps.now }
{
    if table.len() <= FEW {
        check_in::<FEW_SLOTS>(table, statements, goals, steps)
    } else if table.len() <= MORE {
        check_in::<MORE_SLOTS>(table, statements, goals, steps)
    } else {
        check_in::<MOST_SLOTS>(table, statements, goals, steps)
    }
}

// The same with one goal. Closed means a proof of it (ClosedIsDerivation); the check of records makes tests 2 and 4 to
// 7 first, and 15 last.
pub fn check_proof(
    table: Table,
    statements: &[u16],
    goal: u16,
    steps: &[u16],
) -> Result<usize, Refusal>
    ensures { result ≡ proof_answer table.entry.heads.now table.entry.seconds.now statements.now goal steps.now }
{
    let goals = [goal];
    check_proofs(table, statements, &goals, steps)
}
