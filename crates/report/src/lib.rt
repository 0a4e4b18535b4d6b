// A file's check and the line of its answer, or a record's proof in sentences: all that a program does but reading and
// writing. (The last promise of a line is that of `line_write`'s whole.rt.)
#![tactic(auto)]

ghost use Rattle.std.specs.Prelude.{◌≤◌, ◌≡◌, length, replicate, take};
ghost use Rattle.exchange.specs.Figure1.{exchange_answer};
ghost use Rattle.independence.specs.Figure1.{independence_answer};
ghost use Rattle.line.specs.ExchangeLine.{exchange_line};
ghost use Rattle.line.specs.IndependenceLine.{independence_line};
ghost use Rattle.line.specs.Line.{line_after, line_count};
ghost use Rattle.line.specs.Figure1.{printed_line};
ghost use Rattle.line.specs.RecordLine.{most_line};
ghost use Rattle.sentences.specs.Printed.{most_text};
ghost use Rattle.sentences.specs.Figure1.{printed_text};

use basics::limits::MOST_STATEMENTS;
use exchange_check::check::check_exchange;
use independence_check::check::independent_of;
use line_write::exchange_line::write_exchange_line;
use line_write::independence_line::write_independence_line;
use line_write::record_line::write_record_line;
use record_check::check::check_record;
use sentences::counts::Counts;
use sentences_write::write::write_sentences;

// Every line of a record's answer fits into so many bytes: a count of three digits, and 256 signers of five, each after
// a blank.
const MOST_LINE: usize = 8 + 3 + MOST_STATEMENTS * 6 + 1;

// Bytes for a line, all 0: every line has room (`WholeLine`, `WholeExchangeLine`, `WholeIndependenceLine`).
pub fn line_buffer() -> [u8; MOST_LINE]
    ensures { result ≡ replicate most_line 0 }
{
    [0; MOST_LINE]
}

// So many bytes are lent for the text of a proof in sentences: 1 MiB.
const MOST_TEXT: usize = 1048576;

// These bytes, all 0; they have room for a refusal's line too (`WholeText`).
pub fn text_buffer() -> [u8; MOST_TEXT]
    ensures { result ≡ replicate most_text 0 }
{
    [0; MOST_TEXT]
}

// Checks a record, lending a list of 256 words, and writes the line of the answer as `write_record_line` does.
pub fn record_line(file: &[u8], line: &mut [u8]) -> usize
    ensures value { result ≡ line_count line.old (printed_line file.now) }
    ensures line_after { line.new ≡ line_after line.old (printed_line file.now) }
    ensures upper_bound { (result ≤ length line.new) × (result ≡ length (take result line.new)) }
{
    let mut signers = [0u16; MOST_STATEMENTS];
    let verdict = check_record(file, &mut signers);
    write_record_line(verdict, &signers, line)
}

// Checks an exchange file, and writes the line of the answer as `write_exchange_line` does.
pub fn exchange_line(file: &[u8], line: &mut [u8]) -> usize
    ensures value { result ≡ line_count line.old (exchange_line (exchange_answer file.now)) }
    ensures line_after { line.new ≡ line_after line.old (exchange_line (exchange_answer file.now)) }
    ensures upper_bound { (result ≤ length line.new) × (result ≡ length (take result line.new)) }
{
    let verdict = check_exchange(file);
    write_exchange_line(verdict, line)
}

// Tests whether a principal's papers can touch a record's goal, and writes the line of the answer as
// `write_independence_line` does.
pub fn independence_line(file: &[u8], principal: u16, line: &mut [u8]) -> usize
    ensures value { result ≡ line_count line.old (independence_line (independence_answer file.now principal)) }
    ensures line_after { line.new ≡ line_after line.old (independence_line (independence_answer file.now principal)) }
    ensures upper_bound { (result ≤ length line.new) × (result ≡ length (take result line.new)) }
{
    let verdict = independent_of(file, principal);
    write_independence_line(verdict, line)
}

// Writes a record's proof in sentences, lending a list of 256 words, or the line of a refusal as `write_record_line`
// does.
pub fn sentences_text(file: &[u8], text: &mut [u8]) -> usize
    ensures value { result ≡ line_count text.old (printed_text file.now (length text.old)) }
    ensures text_after { text.new ≡ line_after text.old (printed_text file.now (length text.old)) }
    ensures upper_bound { (result ≤ length text.new) × (result ≡ length (take result text.new)) }
{
    let mut list = [0u16; MOST_STATEMENTS];
    match write_sentences(file, &mut list, text) {
        Ok(Counts { signers: _, bytes }) => bytes,
        Err(refusal) => write_record_line(Err(refusal), &list, text),
    }
}
