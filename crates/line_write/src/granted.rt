// "After granted stand the count and the signers" (01). What is written here is written as `text::fill::fill` writes:
// as far as there is room.
ghost use Rattle.std.specs.Prelude.{◌≡◌, ◌++◌, take};
ghost use Rattle.basics.specs.Written.{written_at};
ghost use Rattle.text.specs.Ascii.{ascii};
ghost use Rattle.text.specs.Decimal.{decimal};
ghost use Rattle.text.specs.Fill.{place_after};
ghost use Rattle.record.specs.Verdict.{Granted};
ghost use Rattle.line.specs.RecordLine.{listed, record_line};

use text::decimal::fill_decimal;
use text::fill::fill;

// Writes a blank and a signer from the place `at` on, and gives the place after them.
fn fill_signer(line: &mut [u8], at: usize, signer: u16) -> usize
    ensures line_after { line.new ≡ written_at line.old at (ascii " " ++ decimal signer) }
    ensures value { result ≡ place_after line.old at (ascii " " ++ decimal signer) }
{
    let end = fill(line, at, b" ");
    fill_decimal(line, end, signer as usize)
}

// The same for the first `count` signers.
fn fill_listed(line: &mut [u8], at: usize, signers: &[u16], count: usize) -> usize
    ensures line_after { line.new ≡ written_at line.old at (listed (take count signers.now)) }
    ensures value { result ≡ place_after line.old at (listed (take count signers.now)) }
{
    let mut end = at;
    for &signer in signers.iter().take(count) {
        end = fill_signer(line, end, signer);
    }
    end
}

// Writes a grant's line from the start, and gives the place after it.
pub(crate) fn fill_granted(line: &mut [u8], count: usize, signers: &[u16]) -> usize
    ensures line_after { line.new ≡ written_at line.old 0 (record_line (Granted count) signers.now) }
    ensures value { result ≡ place_after line.old 0 (record_line (Granted count) signers.now) }
{
    let mut end = fill(line, 0, b"granted ");
    end = fill_decimal(line, end, count);
    end = fill_listed(line, end, signers, count);
    fill(line, end, b"\n")
}
