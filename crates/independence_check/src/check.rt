// "Before a contractor may sign, the planner wants to know whether his papers could touch a goal." (02, job 5) The
// call: 1 to 7 and 17 in the checking order, and then the test of sides. Nothing is lent but the file.
ghost use Rattle.std.specs.Prelude.{◌+◌, ◌*◌, ◌≤◌, ◌≡◌};
ghost use Rattle.basics.specs.Limits.{most_formulas, most_statements};
ghost use Rattle.record.specs.Layout.{formulas, statement_count};
ghost use Rattle.record.specs.Proof.{Sized};
ghost use Rattle.independence.specs.Figure1.{independence_answer};
ghost use Rattle.independence_check.specs.Parts.{arrays_answer};

use crate::test::is_independent;
use basics::limits::{MOST_FORMULAS, MOST_PRINCIPALS, MOST_STATEMENTS};
use basics::refusal::Refusal;
use file::words::{FEW_WORDS, read_words, word_at};
use record_check::judge::judge_parts;
use record_check::layout::check_layout;
use table::entry::asked_principal;
use table::lent::Table;

// The words before the steps of the longest record.
const MOST_BEFORE_STEPS: usize = 4 + 2 * MOST_FORMULAS + MOST_STATEMENTS;

// 2 and 4 to 7, then 17, and the test. "17, after 7, the principal's number is above 4,095; place 0."
fn check_arrays(
    table: Table,
    statements: &[u16],
    goal: u16,
    principal: u16,
) -> Result<bool, Refusal>
    ensures { result ≡ arrays_answer table.entry.heads.now table.entry.seconds.now statements.now goal principal }
{
    judge_parts(table, statements, goal)?;
    if MOST_PRINCIPALS <= principal as usize {
        return Err(Refusal {
            number: 17,
            place: 0,
        });
    }
    Ok(is_independent(table, statements, goal, asked_principal(principal)))
}

// The same of a file that 1 to 3 let pass, with at most N words before its steps. Just these are read: "The test reads
// a record but not its steps".
fn check_sized<const N: usize>(file: &[u8], principal: u16) -> Result<bool, Refusal>
    requires sized { Sized file.now }
    requires words_fit { 4 + formulas file.now + formulas file.now + statement_count file.now ≤ N }
    requires few { N ≤ 4 + 2 * most_formulas + most_statements }
    ensures { result ≡ independence_answer file.now principal }
{
    let formulas = word_at(file, 0) as usize;
    let seconds_from = 4 + formulas;
    let statements_from = seconds_from + formulas;
    let end = statements_from + word_at(file, 1) as usize;
    let mut room = [0; N];
    let words = &mut room[..end];
    read_words(file, words);
    let words = &words[..];
    let table = Table {
        heads: &words[4..seconds_from],
        seconds: &words[seconds_from..statements_from],
    };
    check_arrays(
        table,
        &words[statements_from..end],
        word_at(file, 3),
        principal,
    )
}

// Whether the goal of a record is independent of a principal, for a file of any bytes and length.
pub fn independent_of(file: &[u8], principal: u16) -> Result<bool, Refusal>
    ensures { result ≡ independence_answer file.now principal }
{
    check_layout(file)?;
    let formulas = word_at(file, 0) as usize;
    let steps_from = 4 + formulas + formulas + word_at(file, 1) as usize;
    if steps_from <= FEW_WORDS {
        check_sized::<FEW_WORDS>(file, principal)
    } else {
        check_sized::<MOST_BEFORE_STEPS>(file, principal)
    }
}
