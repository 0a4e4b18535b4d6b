// The line for the answer about an exchange file. "The first word of the line is .. equal or refused for an exchange."
// (01)
ghost use Rattle.std.specs.Prelude.{◌≤◌, ◌≡◌, length, take};
ghost use Rattle.line.specs.ExchangeLine.{exchange_line};
ghost use Rattle.line.specs.Line.{line_after, line_count};

use crate::whole::{write_refused, write_whole};
use basics::refusal::Refusal;

// (A function for each kind of answer: one over a trait would be longer than these arms.)
// Writes the line for an answer, or nothing where the line doesn't fit, and answers as `write_record_line` does.
pub fn write_exchange_line(verdict: Result<(), Refusal>, line: &mut [u8]) -> usize
    ensures value { result ≡ line_count line.old (exchange_line verdict) }
    ensures line_after { line.new ≡ line_after line.old (exchange_line verdict) }
    ensures upper_bound { (result ≤ length line.new) × (result ≡ length (take result line.new)) }
{
    match verdict {
        Ok(()) => write_whole(b"equal\n", line),
        Err(refusal) => write_refused(refusal, line),
    }
}
