// Whether a line has room, told before any of it is written: "A refusal .. changes nothing that is lent" (01), nor does
// a line without room. The room left only falls and stays at 0, so nothing overflows.
ghost use Rattle.std.specs.Prelude.{◌-◌, ◌≡◌, ◌++◌, length, take, leb};
ghost use Rattle.text.specs.Ascii.{ascii};
ghost use Rattle.text.specs.Decimal.{decimal};
ghost use Rattle.record.specs.Verdict.{Granted};
ghost use Rattle.line.specs.RecordLine.{listed, record_line};
ghost use Rattle.line.specs.RefusedLine.{refused_line};

use basics::refusal::Refusal;
use text::decimal::decimal_length;

// The room left after a number in decimal.
fn less_decimal(room: usize, n: usize) -> usize
    ensures { result ≡ room - length (decimal n) }
{
    room.saturating_sub(decimal_length(n))
}

// The room left after a blank and a signer.
fn less_signer(room: usize, signer: u16) -> usize
    ensures { result ≡ room - length (ascii " " ++ decimal signer) }
{
    less_decimal(room.saturating_sub(1), signer as usize)
}

// The room left after the first `count` signers, each after a blank.
fn less_listed(room: usize, signers: &[u16], count: usize) -> usize
    ensures { result ≡ room - length (listed (take count signers.now)) }
{
    let mut left = room;
    for &signer in signers.iter().take(count) {
        left = less_signer(left, signer);
    }
    left
}

// Whether a grant's line has room. Its first word and blank have 8 bytes, and before its line feed some room is left.
pub(crate) fn is_granted_room(count: usize, signers: &[u16], room: usize) -> bool
    ensures { result ≡ leb (length (record_line (Granted count) signers.now)) room }
{
    let counted = less_decimal(room.saturating_sub(8), count);
    less_listed(counted, signers, count) > 0
}

// Whether a refusal's line has room, of whatever call: so too, and " place " has 7 bytes.
pub(crate) fn is_refused_room(refusal: Refusal, room: usize) -> bool
    ensures { result ≡ leb (length (refused_line refusal.number refusal.place)) room }
{
    let numbered = less_decimal(room.saturating_sub(8), refusal.number as usize);
    less_decimal(numbered.saturating_sub(7), refusal.place) > 0
}
