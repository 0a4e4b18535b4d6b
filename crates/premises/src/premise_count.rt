// How many premises a rule has: 01's table, a case for each row. The walk and the loop over a proof's goals go by it.
// The code stays a number: the contract answers for each, 12 and more too.
ghost use Rattle.std.specs.Prelude.{◌≡◌, get_or};
ghost use Rattle.steps.specs.PremiseCounts.{premise_counts};

// Beside each case stands its row: name, premises in order.
pub fn premise_count(code: u16) -> usize
    ensures { result ≡ get_or premise_counts code 0 }
{
    match code {
        0 => 0, // init: none
        1 => 1, // affirm: A is true
        2 => 1, // implies right: B, with A added
        3 => 2, // implies left: A is true; the goal, with B added
        4 => 0, // false left: none
        5 => 2, // and right: A; B
        6 => 1, // and left: the goal, with A and B added
        7 => 1, // or right first: A
        8 => 1, // or right second: B
        9 => 2, // or left: the goal with A added; the goal with B added
        10 => 1, // says right: K affirms A
        11 => 1, // says left: the same goal, with A added
        _ => 0, // no rule
    }
}
