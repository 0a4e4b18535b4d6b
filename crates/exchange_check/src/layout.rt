// Tests 1 to 3: the sizes and the length of an exchange file; and room for the longest.
ghost use Rattle.std.specs.Prelude.{suc, ◌≡◌, replicate};
ghost use Rattle.basics.specs.Refusals.{first_refusal};
ghost use Rattle.file.specs.Layout.{layout_tests};
ghost use Rattle.exchange.specs.Layout.{exchange_layout, most_bytes};

use basics::limits::{MOST_FORMULAS, MOST_STATEMENTS, MOST_STEPS};
use basics::refusal::Refusal;
use file::numbers::fits_and;
use file::words::word_at;

// "2 × (4 + 2F + S1 + S2 + N) bytes" (01), 50,184 of them at most.
pub(crate) const MOST_WORDS: usize = 4 + 2 * MOST_FORMULAS + 2 * MOST_STATEMENTS + MOST_STEPS;

const MOST_BYTES: usize = 2 * MOST_WORDS;

// As `record_check::layout::file_buffer`, for the longest exchange file.
pub fn file_buffer() -> [u8; MOST_BYTES + 1]
    ensures { result ≡ replicate (suc most_bytes) 0 }
{
    [0; MOST_BYTES + 1]
}

// 1 to 3. "Sizes F, S1, S2, N; here N may be 0 to 16,384 and each list 0 to 256." (Not a loop over a layout as data, as
// the definitions have it: decision 68.)
pub(crate) fn check_layout(file: &[u8]) -> Result<(), Refusal>
    ensures { result ≡ first_refusal (layout_tests exchange_layout file.now) }
{
    let formulas = word_at(file, 0) as usize;
    let first = word_at(file, 1) as usize;
    let second = word_at(file, 2) as usize;
    let steps = word_at(file, 3) as usize;
    let steps_fit = fits_and(0, steps, MOST_STEPS, true);
    let second_fit = fits_and(0, second, MOST_STATEMENTS, steps_fit);
    let lists_fit = fits_and(0, first, MOST_STATEMENTS, second_fit);
    let fit = fits_and(1, formulas, MOST_FORMULAS, lists_fit);
    file::layout::check_layout(
        file,
        8,
        fit,
        2 * (4 + formulas + formulas + first + second + steps),
    )
}
