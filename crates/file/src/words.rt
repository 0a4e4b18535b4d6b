// "A file of 16-bit words, low byte first" (01).
ghost use Rattle.std.specs.Prelude.{◌+◌, ◌*◌, ◌≡◌};
ghost use Rattle.basics.specs.Written.{written};
ghost use Rattle.file.specs.Words.{file_words, word_at};

use basics::limits::MOST_FORMULAS;

// Rooms for the words of a file, for either kind. An array is cleared before a file's words are read into it, and
// clearing the longest file's room takes longer than all else in the check of a short file. So there is a room for the
// smallest files,
pub const FEWEST_WORDS: usize = 64;

// one for files of a common size,
pub const FEW_WORDS: usize = 1024;

// and one for the widest tables with few other words.
pub const MANY_WORDS: usize = 2 * MOST_FORMULAS + FEW_WORDS;

// A word of its two bytes.
fn word(low: u8, high: u8) -> u16
    ensures { result ≡ low + 256 * high }
{
    u16::from_le_bytes([low, high])
}

// The word at a position, 0 past the end.
pub fn word_at(file: &[u8], i: usize) -> u16
    ensures { result ≡ word_at file.now i }
{
    if i < file.len() / 2 {
        word(file[2 * i], file[2 * i + 1])
    } else {
        0
    }
}

// The words of a file, written from the start of `words`, as far as it goes.
pub fn read_words(file: &[u8], words: &mut [u16])
    ensures { words.new ≡ written words.old (file_words file.now) }
{
    for i in 0..words.len().min(file.len() / 2) {
        words[i] = word(file[2 * i], file[2 * i + 1]);
    }
}
