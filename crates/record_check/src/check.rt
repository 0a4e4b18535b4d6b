// The check of a record, the entry point: every test, in the checking order.
ghost use Rattle.std.specs.Prelude.{◌*◌, ◌≤◌, ◌≡◌, length};
ghost use Rattle.record.specs.Figure1.{record_answer};
ghost use Rattle.record.specs.Layout.{most_bytes};
ghost use Rattle.record.specs.ListAfter.{list_after};
ghost use Rattle.record.specs.Proof.{Sized};
ghost use Rattle.record_check.specs.Parts.{arrays_answer, list_written};

use crate::judge::judge_contents;
use crate::layout::{MOST_WORDS, check_layout};
use basics::refusal::Refusal;
use file::words::{FEW_WORDS, FEWEST_WORDS, MANY_WORDS, read_words, word_at};
use signers_write::list::list_signers;
use table::lent::Table;

// 2 and 4 to 15, 8, and the signers' list: written only once all tests have passed, and long enough since 8 has.
// "Granted gives their count."
fn check_contents(
    table: Table,
    statements: &[u16],
    goal: u16,
    steps: &[u16],
    signers: &mut [u16],
) -> Result<usize, Refusal>
    ensures value { result ≡ arrays_answer table.entry.heads.now table.entry.seconds.now statements.now goal steps.now (length signers.old) }
    ensures signers_after { signers.new ≡ list_written result table.entry.heads.now table.entry.seconds.now statements.now steps.now signers.old }
{
    judge_contents(table, statements, goal, steps, signers.len())?;
    Ok(list_signers(table, statements, steps, signers))
}

// 4 to 15, and 8, of a file of at most N words that 1 to 3 let pass.
#[inline(always)]
fn check_sized<const N: usize>(file: &[u8], signers: &mut [u16]) -> Result<usize, Refusal>
    requires sized { Sized file.now }
    requires room { (length file.now ≤ 2 * N) × (2 * N ≤ most_bytes) }
    ensures value { result ≡ record_answer file.now (length signers.old) }
    ensures signers_after { signers.new ≡ list_after file.now result signers.old }
{
    let mut room = [0u16; N];
    read_words(file, &mut room);
    let words = &room[..];
    let formulas = word_at(file, 0) as usize;
    let seconds_from = 4 + formulas;
    let statements_from = seconds_from + formulas;
    let steps_from = statements_from + word_at(file, 1) as usize;
    let end = steps_from + word_at(file, 2) as usize;
    let table = Table {
        heads: &words[4..seconds_from],
        seconds: &words[seconds_from..statements_from],
    };
    check_contents(
        table,
        &words[statements_from..steps_from],
        word_at(file, 3),
        &words[steps_from..end],
        signers,
    )
}

// The same with a frame of its own: to enter one with room for a long file's words would take as long as all else in
// the check of a small file.
#[inline(never)]
fn check_apart<const N: usize>(file: &[u8], signers: &mut [u16]) -> Result<usize, Refusal>
    requires sized { Sized file.now }
    requires room { (length file.now ≤ 2 * N) × (2 * N ≤ most_bytes) }
    ensures value { result ≡ record_answer file.now (length signers.old) }
    ensures signers_after { signers.new ≡ list_after file.now result signers.old }
{
    check_sized::<N>(file, signers)
}

// The answer for a file of any bytes and length. On a grant the signers stand in the lent list from its start, rising,
// and the words after them are as they were; on a refusal the whole list is.
#[tactic(auto, using(crate::proofs::Whole::layout_passed, crate::proofs::Whole::within_most))]
pub fn check_record(file: &[u8], signers: &mut [u16]) -> Result<usize, Refusal>
    ensures value { result ≡ record_answer file.now (length signers.old) }
    ensures signers_after { signers.new ≡ list_after file.now result signers.old }
{
    check_layout(file)?;
    // The smallest files go to their check without a call between, which would take a quarter of their time.
    if file.len() <= 2 * FEWEST_WORDS {
        check_sized::<FEWEST_WORDS>(file, signers)
    } else if file.len() <= 2 * FEW_WORDS {
        check_apart::<FEW_WORDS>(file, signers)
    } else if file.len() <= 2 * MANY_WORDS {
        check_apart::<MANY_WORDS>(file, signers)
    } else {
        check_apart::<MOST_WORDS>(file, signers)
    }
}
