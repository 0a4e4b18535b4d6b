// The lines of all steps, at goals that are kept in two words each (`goals::kept`).
ghost use Rattle.std.specs.Prelude.{◌≡◌};
ghost use Rattle.basics.specs.Written.{written_at};
ghost use Rattle.text.specs.Fill.{place_after};
ghost use Rattle.table.specs.Tests.{entries_of};
ghost use Rattle.goals.specs.Kept.{lines_at};
ghost use Rattle.sentences.specs.Sentences.{sentences_from};

use crate::text_line::fill_line;
use goals::kept::goal_at;
use table::lent::Table;

// Writes a line for each step, as far as the words and both lists go, from the start of the text and as far as it has
// room, and gives the place after the last.
pub(crate) fn fill_lines(
    table: Table,
    steps: &[u16],
    numbers: &[u16],
    affirms: &[u16],
    text: &mut [u8],
) -> usize
    ensures text_after { text.new ≡ written_at text.old 0 (sentences_from 0 (lines_at (entries_of table.entry) steps.now numbers.now affirms.now)) }
    ensures value { result ≡ place_after text.old 0 (sentences_from 0 (lines_at (entries_of table.entry) steps.now numbers.now affirms.now)) }
{
    let mut end = 0;
    for (i, ((&word, &number), &affirms)) in steps.iter().zip(numbers).zip(affirms).enumerate() {
        let goal = goal_at(table, number, affirms);
        end = fill_line(table, i, word, goal, text, end);
    }
    end
}
