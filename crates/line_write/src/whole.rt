// A line written from the start of lent bytes, whole or not at all: fixed bytes, a grant's line, and a refusal's. Each
// gives how many bytes that is, or 0 where the line doesn't fit. By the last promise a caller can take `&line[..r]`
// without a test. (The count is a plain number: a type with that promise would be opened by each caller.)
ghost use Rattle.std.specs.Prelude.{◌≤◌, ◌≡◌, length, take};
ghost use Rattle.record.specs.Verdict.{Granted};
ghost use Rattle.line.specs.Line.{line_after, line_count};
ghost use Rattle.line.specs.RecordLine.{record_line};
ghost use Rattle.line.specs.RefusedLine.{refused_line};

use crate::granted::fill_granted;
use crate::measure::{is_granted_room, is_refused_room};
use crate::refused::fill_refused;
use basics::refusal::Refusal;
use text::fill::fill;

pub(crate) fn write_whole(text: &[u8], line: &mut [u8]) -> usize
    ensures value { result ≡ line_count line.old text.now }
    ensures line_after { line.new ≡ line_after line.old text.now }
    ensures upper_bound { (result ≤ length line.new) × (result ≡ length (take result line.new)) }
{
    if line.len() < text.len() {
        return 0;
    }
    fill(line, 0, text)
}

pub(crate) fn write_granted(count: usize, signers: &[u16], line: &mut [u8]) -> usize
    ensures value { result ≡ line_count line.old (record_line (Granted count) signers.now) }
    ensures line_after { line.new ≡ line_after line.old (record_line (Granted count) signers.now) }
    ensures upper_bound { (result ≤ length line.new) × (result ≡ length (take result line.new)) }
{
    if !is_granted_room(count, signers, line.len()) {
        return 0;
    }
    fill_granted(line, count, signers)
}

pub(crate) fn write_refused(refusal: Refusal, line: &mut [u8]) -> usize
    ensures value { result ≡ line_count line.old (refused_line refusal.number refusal.place) }
    ensures line_after { line.new ≡ line_after line.old (refused_line refusal.number refusal.place) }
    ensures upper_bound { (result ≤ length line.new) × (result ≡ length (take result line.new)) }
{
    if !is_refused_room(refusal, line.len()) {
        return 0;
    }
    fill_refused(line, refusal)
}
