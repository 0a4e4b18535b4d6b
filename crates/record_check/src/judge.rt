// The tests of a record over its arrays: 2 and 4 to 7, 9 to 15, 8, and all of them. They write nothing and take arrays
// of any length, so a call can make them in its own order, with its own tests between or after.
ghost use Rattle.std.specs.Prelude.{◌≡◌, [], ◌∷◌};
ghost use Rattle.basics.specs.Refusals.{first_refusal};
ghost use Rattle.record_check.specs.Parts.{part_tests, step_test, room_test, content_tests};

use basics::limits::MOST_STATEMENTS;
use basics::refusal::Refusal;
use file::numbers::{first_outside, is_outside};
use signers_write::list::count_signers;
use table::lent::Table;
use table_check::check::check_table;
use walk::check::check_proof;

// 2, of F and S, and 4 to 7. S is asked first, since `check_table` makes 2 of the table, 4 and 5 in one.
#[tactic(auto, using(crate::proofs::PartTests::refused_S, crate::proofs::PartTests::refused_6, crate::proofs::PartTests::refused_7, crate::proofs::PartTests::passed_7))]
pub fn judge_parts(table: Table, statements: &[u16], goal: u16) -> Result<(), Refusal>
    ensures { result ≡ first_refusal (part_tests table.entry.heads.now table.entry.seconds.now statements.now goal) }
{
    if MOST_STATEMENTS < statements.len() {
        return Err(Refusal {
            number: 2,
            place: 0,
        });
    }
    check_table(table)?;
    if is_outside(table.heads.len(), goal) {
        return Err(Refusal {
            number: 6,
            place: 0,
        });
    }
    if let Some(place) = first_outside(table.heads.len(), statements) {
        return Err(Refusal { number: 7, place });
    }
    Ok(())
}

// 9 to 15. "15. The proof is closed and words remain (place: the first of them)."
pub fn judge_steps(
    table: Table,
    statements: &[u16],
    goal: u16,
    steps: &[u16],
) -> Result<(), Refusal>
    ensures { result ≡ first_refusal (step_test table.entry.heads.now table.entry.seconds.now statements.now goal steps.now ∷ []) }
{
    let used = check_proof(table, statements, goal, steps)?;
    if used < steps.len() {
        return Err(Refusal {
            number: 15,
            place: used,
        });
    }
    Ok(())
}

// 8, of a list of so many words. The signers are counted only where the room is below S, since they are no more than
// the statements (`NoMoreThanStatements`).
#[tactic(auto, using(crate::proofs::RoomTest::refused_8, crate::proofs::RoomTest::passed_8, crate::proofs::RoomTest::passed_by_S))]
pub fn judge_room(
    table: Table,
    statements: &[u16],
    steps: &[u16],
    room: usize,
) -> Result<(), Refusal>
    ensures { result ≡ first_refusal (room_test table.entry.heads.now table.entry.seconds.now statements.now steps.now room ∷ []) }
{
    if room < statements.len() && room < count_signers(table, statements, steps) {
        return Err(Refusal {
            number: 8,
            place: 0,
        });
    }
    Ok(())
}

// All of them, in order: 2 and 4 to 15, and then 8, of a list of so many words.
pub fn judge_contents(
    table: Table,
    statements: &[u16],
    goal: u16,
    steps: &[u16],
    room: usize,
) -> Result<(), Refusal>
    ensures { result ≡ first_refusal (content_tests table.entry.heads.now table.entry.seconds.now statements.now goal steps.now room) }
{
    judge_parts(table, statements, goal)?;
    judge_steps(table, statements, goal, steps)?;
    judge_room(table, statements, steps, room)
}
