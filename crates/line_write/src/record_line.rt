// The line for the answer about a record. "The first word of the line is granted or refused .. One blank parts the
// words and a line feed ends the line." (01)
ghost use Rattle.std.specs.Prelude.{◌≤◌, ◌≡◌, length, take};
ghost use Rattle.line.specs.Line.{line_after, line_count};
ghost use Rattle.line.specs.RecordLine.{record_line};

use crate::whole::{write_granted, write_refused};
use basics::refusal::Refusal;

// Writes the line for an answer from the start of lent bytes and gives how many bytes that is, or writes nothing and
// gives 0 where the line doesn't fit. By the last promise a caller can take `&line[..r]` without a test.
pub fn write_record_line(verdict: Result<usize, Refusal>, signers: &[u16], line: &mut [u8]) -> usize
    ensures value { result ≡ line_count line.old (record_line verdict signers.now) }
    ensures line_after { line.new ≡ line_after line.old (record_line verdict signers.now) }
    ensures upper_bound { (result ≤ length line.new) × (result ≡ length (take result line.new)) }
{
    match verdict {
        Ok(count) => write_granted(count, signers, line),
        Err(refusal) => write_refused(refusal, line),
    }
}
