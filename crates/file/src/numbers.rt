// Numbers in a range.
ghost use Rattle.std.specs.Prelude.{◌≡◌, leb};
ghost use Rattle.std.specs.List.{position};
ghost use Rattle.basics.specs.Choice.{both};
ghost use Rattle.file.specs.Outside.{outside};

// Whether a size is from least to most, and those after it are in their ranges.
pub fn fits_and(least: usize, n: usize, most: usize, rest: bool) -> bool
    ensures { result ≡ both (both (leb least n) (leb n most)) rest }
{
    least <= n && n <= most && rest
}

// Whether a number is F or more.
pub fn is_outside(formulas: usize, n: u16) -> bool
    ensures { result ≡ leb formulas n }
{
    formulas <= n as usize
}

// The first position of a number that is F or more, as the library says it.
fn position_outside(formulas: usize, numbers: &[u16]) -> Option<usize>
    ensures { result ≡ position (λ n. leb formulas n) numbers.now }
{
    numbers.iter().position(|&n| is_outside(formulas, n))
}

// "7. A statement's number is F or more (place: the first such position)."
#[tactic(auto, using(crate::proofs::Outside::outside_is))]
pub fn first_outside(formulas: usize, numbers: &[u16]) -> Option<usize>
    ensures { result ≡ outside formulas numbers.now }
{
    position_outside(formulas, numbers)
}
