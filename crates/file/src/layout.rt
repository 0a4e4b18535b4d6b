// Tests 1 to 3, which a file's length and sizes decide, for any layout.
ghost use Rattle.std.specs.Prelude.{◌≡◌};
ghost use Rattle.basics.specs.Refusals.{first_refusal};
ghost use Rattle.file.specs.Layout.{tests_by};

use basics::refusal::Refusal;

// 1 to 3 of a file, by the least number of bytes, whether its sizes are in range, and the length that they ask for.
pub fn check_layout(file: &[u8], least: usize, fit: bool, size: usize) -> Result<(), Refusal>
    ensures { result ≡ first_refusal (tests_by file.now least fit size) }
{
    if file.len() < least {
        return Err(Refusal {
            number: 1,
            place: 0,
        });
    }
    if !fit {
        return Err(Refusal {
            number: 2,
            place: 0,
        });
    }
    if file.len() != size {
        return Err(Refusal {
            number: 3,
            place: 0,
        });
    }
    Ok(())
}
