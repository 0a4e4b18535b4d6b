// Bytes written into lent bytes, from a place on.
ghost use Rattle.std.specs.Prelude.{◌≡◌};
ghost use Rattle.basics.specs.Written.{written_at};
ghost use Rattle.text.specs.Fill.{place_after};

// Writes `bytes` from the place `at` on, as far as there is room, and gives the place after the last byte written.
pub fn fill(out: &mut [u8], at: usize, bytes: &[u8]) -> usize
    ensures out_after { out.new ≡ written_at out.old at bytes.now }
    ensures value { result ≡ place_after out.old at bytes.now }
{
    // `at + i` grows only while it is below the length, so it stays a usize. A `for` over the bytes that returns where
    // the room ends makes the texts of sentences a twelfth to a fifth slower, a `copy_from_slice` a quarter to a third.
    let mut i = 0;
    while i < bytes.len() && at + i < out.len() {
        out[at + i] = bytes[i];
        i += 1;
    }
    at + i
}
