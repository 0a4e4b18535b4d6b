// Tests 1 to 3: the sizes and the length of a record; and room for the longest.
ghost use Rattle.std.specs.Prelude.{suc, ◌≡◌, replicate};
ghost use Rattle.basics.specs.Refusals.{first_refusal};
ghost use Rattle.file.specs.Layout.{layout_tests};
ghost use Rattle.record.specs.Layout.{record_layout, most_bytes};

use basics::limits::{MOST_FORMULAS, MOST_STATEMENTS, MOST_STEPS};
use basics::refusal::Refusal;
use file::numbers::fits_and;
use file::words::word_at;

// "The length is 2 × (4 + 2F + S + N) bytes, at most 49,672." (01)
pub const MOST_WORDS: usize = 4 + 2 * MOST_FORMULAS + MOST_STATEMENTS + MOST_STEPS;

const MOST_BYTES: usize = 2 * MOST_WORDS;

// Bytes for a file, one more than the longest record has, all 0: so a longer file is seen to be longer, and its answer
// is that of the bytes here (`LongerFile`).
pub fn file_buffer() -> [u8; MOST_BYTES + 1]
    ensures { result ≡ replicate (suc most_bytes) 0 }
{
    [0; MOST_BYTES + 1]
}

// 1 to 3. "Sizes come first: F formulas (1 to 4,096), S statements (0 to 256), N steps (1 to 16,384), and the goal's
// formula number", of which nothing is asked here.
pub fn check_layout(file: &[u8]) -> Result<(), Refusal>
    ensures { result ≡ first_refusal (layout_tests record_layout file.now) }
{
    let formulas = word_at(file, 0) as usize;
    let statements = word_at(file, 1) as usize;
    let steps = word_at(file, 2) as usize;
    let steps_fit = fits_and(1, steps, MOST_STEPS, true);
    let counts_fit = fits_and(0, statements, MOST_STATEMENTS, steps_fit);
    let fit = fits_and(1, formulas, MOST_FORMULAS, counts_fit);
    file::layout::check_layout(
        file,
        8,
        fit,
        2 * (4 + formulas + formulas + statements + steps),
    )
}
