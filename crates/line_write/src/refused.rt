// "after refused stand the number, the word `place` and the place" (01). Fixed byte strings copied into the line, and
// no `Display`: 01 names this form.
ghost use Rattle.std.specs.Prelude.{◌≡◌};
ghost use Rattle.basics.specs.Written.{written_at};
ghost use Rattle.text.specs.Fill.{place_after};
ghost use Rattle.line.specs.RefusedLine.{refused_line};

use basics::refusal::Refusal;
use text::decimal::fill_decimal;
use text::fill::fill;

// Writes a refusal's line from the start, as far as there is room, and gives the place after it.
pub(crate) fn fill_refused(line: &mut [u8], refusal: Refusal) -> usize
    ensures line_after { line.new ≡ written_at line.old 0 (refused_line refusal.number refusal.place) }
    ensures value { result ≡ place_after line.old 0 (refused_line refusal.number refusal.place) }
{
    let mut end = fill(line, 0, b"refused ");
    end = fill_decimal(line, end, refusal.number as usize);
    end = fill(line, end, b" place ");
    end = fill_decimal(line, end, refusal.place);
    fill(line, end, b"\n")
}
