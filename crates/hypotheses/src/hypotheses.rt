// The hypotheses held, as slots: in their first half a mark for each formula number, in their second half the list of
// hypotheses, each once, in the order in which they came. They are one slice, lent with a count beside it: that is what
// the definitions of Slots.antt speak of, and there is no heap for a set.
ghost use Rattle.std.specs.Prelude.{◌≡◌};
ghost use Rattle.hypotheses.specs.Slots.{is_held, held_one, count_one, held_all, count_all, released};

use table::entry::Formula;

// Whether the slots show a number as a hypothesis.
pub fn is_held(slots: &[u16], n: u16) -> bool
    ensures { result ≡ is_held slots.now n }
{
    let i = n as usize;
    i < slots.len() / 2 && slots[i] != 0
}

// Holds the formula of a number, unless it is held already: it takes the place after so many hypotheses. Answers how
// many there are then. (`hold_all` has numbers that are no goals, and `table` makes a `Formula` only of a goal's.)
fn hold_number(slots: &mut [u16], held: usize, n: u16) -> usize
    ensures value { result ≡ count_one slots.old held n }
    ensures slots_after { slots.new ≡ held_one slots.old held n }
{
    let half = slots.len() / 2;
    let i = n as usize;
    if i < half && held < half && slots[i] == 0 {
        slots[i] = 1;
        slots[half + held] = n;
        held + 1
    } else {
        held
    }
}

// The same for a formula.
pub fn hold(slots: &mut [u16], held: usize, f: Formula) -> usize
    ensures value { result ≡ count_one slots.old held f.0 }
    ensures slots_after { slots.new ≡ held_one slots.old held f.0 }
{
    hold_number(slots, held, f.0)
}

// Takes back the hypotheses at the places from `from` to before `to`, the last first.
pub fn release(slots: &mut [u16], from: usize, to: usize)
    ensures { slots.new ≡ released slots.old from to }
{
    let half = slots.len() / 2;
    for i in (from..to.min(half)).rev() {
        let n = slots[half + i] as usize;
        if n < half {
            slots[n] = 0;
        }
    }
}

// Holds the statements, where nothing is held yet. Answers how many hypotheses there are then.
pub fn hold_all(slots: &mut [u16], statements: &[u16]) -> usize
    ensures value { result ≡ count_all slots.old 0 statements.now }
    ensures slots_after { slots.new ≡ held_all slots.old 0 statements.now }
{
    let mut held = 0;
    for &n in statements {
        held = hold_number(slots, held, n);
    }
    held
}
