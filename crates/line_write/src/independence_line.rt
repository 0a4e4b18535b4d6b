// The line for the answer whether a principal can matter (02, job 5).
ghost use Rattle.std.specs.Prelude.{◌≤◌, ◌≡◌, length, take};
ghost use Rattle.line.specs.IndependenceLine.{independence_line};
ghost use Rattle.line.specs.Line.{line_after, line_count};

use crate::whole::{write_refused, write_whole};
use basics::refusal::Refusal;

// Writes the line for an answer, or nothing where the line doesn't fit, and answers as `write_record_line` does.
pub fn write_independence_line(verdict: Result<bool, Refusal>, line: &mut [u8]) -> usize
    ensures value { result ≡ line_count line.old (independence_line verdict) }
    ensures line_after { line.new ≡ line_after line.old (independence_line verdict) }
    ensures upper_bound { (result ≤ length line.new) × (result ≡ length (take result line.new)) }
{
    match verdict {
        Ok(true) => write_whole(b"independent\n", line),
        Ok(false) => write_whole(b"not independent\n", line),
        Err(refusal) => write_refused(refusal, line),
    }
}
