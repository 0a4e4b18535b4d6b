// Tests 9 to 15: the steps are the proofs of both lists, and nothing follows them.
ghost use Rattle.std.specs.Prelude.{◌≡◌, [], ◌∷◌};
ghost use Rattle.basics.specs.Refusals.{first_refusal};
ghost use Rattle.exchange_check.specs.Parts.{step_test};

use basics::refusal::Refusal;
use table::lent::Table;
use walk::check::check_proofs;

// "The words hold a proof of each statement of the second list from the first, in order, then of each of the first from
// the second", and "each proof begins at the word after the last one": `check_proofs` hands each proof of a list the
// tail of the step words, from the last proof's end, and here the tail that the second list's proofs leave is handed on
// to the first's.
#[tactic(auto, using(crate::proofs::StepTest::used_within, crate::proofs::StepTest::more_within))]
pub(crate) fn check_steps(
    table: Table,
    first: &[u16],
    second: &[u16],
    steps: &[u16],
) -> Result<(), Refusal>
    ensures { result ≡ first_refusal (step_test table.entry.heads.now table.entry.seconds.now first.now second.now steps.now ∷ []) }
{
    let used = check_proofs(table, first, second, steps)?;
    match check_proofs(table, second, first, &steps[used..]) {
        Ok(more) if used + more < steps.len() => Err(Refusal {
            number: 15,
            place: used + more,
        }),
        Ok(_) => Ok(()),
        Err(Refusal { number, place }) => Err(Refusal {
            number,
            place: used + place,
        }),
    }
}
