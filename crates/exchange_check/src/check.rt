// The check of an exchange file, the entry point: every test of 01 but 6 and 8, in its order.
ghost use Rattle.std.specs.Prelude.{◌*◌, ◌≤◌, ◌≡◌, length};
ghost use Rattle.table.specs.Tests.{SizedTable};
ghost use Rattle.exchange.specs.Figure1.{exchange_answer};
ghost use Rattle.exchange.specs.Layout.{most_bytes};
ghost use Rattle.exchange.specs.Proofs.{Sized};
ghost use Rattle.exchange_check.specs.Parts.{arrays_answer};

use crate::arrays::check_arrays;
use crate::layout::{MOST_WORDS, check_layout};
use crate::step_tests::check_steps;
use basics::refusal::Refusal;
use file::words::{FEW_WORDS, FEWEST_WORDS, MANY_WORDS, read_words, word_at};
use table::lent::Table;

// 4 to 15. The two lists stand one after the other in `lists`.
fn check_contents(
    table: Table,
    lists: &[u16],
    first: &[u16],
    second: &[u16],
    steps: &[u16],
) -> Result<(), Refusal>
    requires { SizedTable table.heads.now table.seconds.now }
    ensures { result ≡ arrays_answer table.entry.heads.now table.entry.seconds.now lists.now first.now second.now steps.now }
{
    check_arrays(table, lists)?;
    check_steps(table, first, second, steps)
}

// 4 to 15 of a file of at most N words that 1 to 3 let pass.
#[inline(always)]
fn check_sized<const N: usize>(file: &[u8]) -> Result<(), Refusal>
    requires sized { Sized file.now }
    requires room { (length file.now ≤ 2 * N) × (2 * N ≤ most_bytes) }
    ensures { result ≡ exchange_answer file.now }
{
    let mut room = [0u16; N];
    read_words(file, &mut room);
    let words = &room[..];
    let formulas = word_at(file, 0) as usize;
    let seconds_from = 4 + formulas;
    let first_from = seconds_from + formulas;
    let second_from = first_from + word_at(file, 1) as usize;
    let steps_from = second_from + word_at(file, 2) as usize;
    let end = steps_from + word_at(file, 3) as usize;
    let table = Table {
        heads: &words[4..seconds_from],
        seconds: &words[seconds_from..first_from],
    };
    check_contents(
        table,
        &words[first_from..steps_from],
        &words[first_from..second_from],
        &words[second_from..steps_from],
        &words[steps_from..end],
    )
}

// The same with a frame of its own: to enter one with room for a long file's words would take as long as all else in
// the check of a small file.
#[inline(never)]
fn check_apart<const N: usize>(file: &[u8]) -> Result<(), Refusal>
    requires sized { Sized file.now }
    requires room { (length file.now ≤ 2 * N) × (2 * N ≤ most_bytes) }
    ensures { result ≡ exchange_answer file.now }
{
    check_sized::<N>(file)
}

// The answer for a file of any bytes and length: equal exactly where it carries all proofs (`EqualExactly`), and so
// only for lists equal in force. Nothing is lent but the file, which is only read.
#[tactic(auto, using(crate::proofs::Whole::layout_passed, crate::proofs::Whole::within_most))]
pub fn check_exchange(file: &[u8]) -> Result<(), Refusal>
    ensures { result ≡ exchange_answer file.now }
{
    check_layout(file)?;
    // The smallest files go to their check without a call between, which would take a quarter of their time.
    if file.len() <= 2 * FEWEST_WORDS {
        check_sized::<FEWEST_WORDS>(file)
    } else if file.len() <= 2 * FEW_WORDS {
        check_apart::<FEW_WORDS>(file)
    } else if file.len() <= 2 * MANY_WORDS {
        check_apart::<MANY_WORDS>(file)
    } else {
        check_apart::<MOST_WORDS>(file)
    }
}
