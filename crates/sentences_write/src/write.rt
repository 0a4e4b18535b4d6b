// A record's proof in sentences, the entry point: every test of the record in its order, then 16, and only then is
// anything written.
ghost use Rattle.std.specs.Prelude.{◌*◌, ◌≤◌, ◌≡◌, length};
ghost use Rattle.basics.specs.Limits.{most_steps};
ghost use Rattle.record.specs.Proof.{Sized};
ghost use Rattle.sentences.specs.Answer.{signers_after};
ghost use Rattle.sentences.specs.Figure1.{sentences_answer, text_after};
ghost use Rattle.sentences_write.specs.Arrays.{arrays_answer, list_written, text_written};

use crate::lines::fill_lines;
use crate::measure::whole_length;
use basics::limits::MOST_STEPS;
use basics::refusal::Refusal;
use file::words::{read_words, word_at};
use goals::goals::write_goals;
use record_check::judge::judge_contents;
use record_check::layout::{MOST_WORDS, check_layout};
use sentences::counts::Counts;
use signers_write::list::list_signers;
use table::lent::Table;

// 2 and 4 to 15, 8 and 16, the text and then the signers' list: written only once all tests have passed.
fn write_contents(
    table: Table,
    statements: &[u16],
    goal: u16,
    steps: &[u16],
    signers: &mut [u16],
    text: &mut [u8],
) -> Result<Counts, Refusal>
    requires { length steps.now ≤ most_steps }
    ensures value { result ≡ arrays_answer table.entry.heads.now table.entry.seconds.now statements.now goal steps.now (length signers.old) (length text.old) }
    ensures signers_after { signers.new ≡ list_written table.entry.heads.now table.entry.seconds.now statements.now goal steps.now result signers.old }
    ensures text_after { text.new ≡ text_written table.entry.heads.now table.entry.seconds.now statements.now goal steps.now result text.old }
{
    judge_contents(table, statements, goal, steps, signers.len())?;
    let mut numbers = [0u16; MOST_STEPS];
    let mut affirms = [0u16; MOST_STEPS];
    write_goals(table, goal, steps, &mut numbers, &mut affirms);
    if text.len() < whole_length(table, steps, &numbers, &affirms) {
        return Err(Refusal {
            number: 16,
            place: 0,
        });
    }
    let bytes = fill_lines(table, steps, &numbers, &affirms, text);
    let count = list_signers(table, statements, steps, signers);
    Ok(Counts {
        signers: count,
        bytes,
    })
}

// The same for a file that 1 to 3 let pass. Its words are read into `words`, which has room for them.
fn write_sized(
    file: &[u8],
    words: &mut [u16],
    signers: &mut [u16],
    text: &mut [u8],
) -> Result<Counts, Refusal>
    requires sized { Sized file.now }
    requires file_len_bound { length file.now ≤ 2 * length words.old }
    ensures value { result ≡ sentences_answer file.now (length signers.old) (length text.old) }
    ensures signers_after { signers.new ≡ signers_after file.now result signers.old }
    ensures text_after { text.new ≡ text_after file.now result text.old }
{
    read_words(file, words);
    let formulas = word_at(file, 0) as usize;
    let seconds_from = 4 + formulas;
    let statements_from = seconds_from + formulas;
    let steps_from = statements_from + word_at(file, 1) as usize;
    let end = steps_from + word_at(file, 2) as usize;
    let table = Table {
        heads: &words[4..seconds_from],
        seconds: &words[seconds_from..statements_from],
    };
    write_contents(
        table,
        &words[statements_from..steps_from],
        word_at(file, 3),
        &words[steps_from..end],
        signers,
        text,
    )
}

// Writes a record's proof in sentences, and its signers: both from the start of what is lent, and what follows stays.
// On a refusal all that is lent is as it was.
pub fn write_sentences(file: &[u8], signers: &mut [u16], text: &mut [u8]) -> Result<Counts, Refusal>
    ensures value { result ≡ sentences_answer file.now (length signers.old) (length text.old) }
    ensures signers_after { signers.new ≡ signers_after file.now result signers.old }
    ensures text_after { text.new ≡ text_after file.now result text.old }
{
    check_layout(file)?;
    let mut words = [0u16; MOST_WORDS];
    write_sized(file, &mut words, signers, text)
}
