// Numbers in decimal, written into lent bytes.
ghost use Rattle.std.specs.Prelude.{◌≡◌, length};
ghost use Rattle.basics.specs.Written.{written_at};
ghost use Rattle.text.specs.Decimal.{decimal};
ghost use Rattle.text.specs.Fill.{place_after};

use crate::fill::fill;
use itoa::Buffer;

// How many digits a number has.
#[tactic(auto, using(crate::proofs::Digits::length_power))]
pub fn decimal_length(n: usize) -> usize
    ensures { result ≡ length (decimal n) }
{
    n.max(1).ilog10() as usize + 1
}

// Writes a number in decimal from the place `at` on, as `fill` writes.
#[tactic(auto, using(crate::proofs::Digits::printed_same))]
pub fn fill_decimal(out: &mut [u8], at: usize, n: usize) -> usize
    ensures out_after { out.new ≡ written_at out.old at (decimal n) }
    ensures value { result ≡ place_after out.old at (decimal n) }
{
    fill(out, at, Buffer::new().format(n).as_bytes())
}
