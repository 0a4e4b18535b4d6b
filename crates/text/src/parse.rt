// A number of 16 bits read from its decimal digits.
ghost use Rattle.std.specs.Prelude.{◌≡◌};
ghost use Rattle.text.specs.Parse.{is_digit, parsed_word};

// Whether a byte is a digit.
fn is_digit(b: u8) -> bool
    ensures { result ≡ is_digit b }
{
    b.is_ascii_digit()
}

// The number that a text of any length says: digits only, and larger than a word counts as 65,535.
pub fn parse_word(text: &[u8]) -> Option<u16>
    ensures { result ≡ parsed_word text.now }
{
    if text.is_empty() {
        return None;
    }
    let mut n = 0u16;
    for &b in text {
        if !is_digit(b) {
            return None;
        }
        n = n.saturating_mul(10).saturating_add(u16::from(b - b'0'));
    }
    Some(n)
}
