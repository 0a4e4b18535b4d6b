// "A head is kind × 4,096 + first operand." "A step word is code × 4,096 + the named formula's number" (01): words that
// hold two numbers.
ghost use Rattle.std.specs.Prelude.{◌≡◌};
ghost use Rattle.basics.specs.Word.{upper as upper_of, lower as lower_of};

const RADIX: u16 = 4096;

// The kind of a head, the code of a step word.
pub fn upper(word: u16) -> u16
    ensures { result ≡ upper_of word }
{
    word / RADIX
}

// The first operand of a head, the part of a step word.
pub fn lower(word: u16) -> u16
    ensures { result ≡ lower_of word }
{
    word % RADIX
}
