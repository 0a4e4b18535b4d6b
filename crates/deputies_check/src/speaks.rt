// The one place where it is decided whether one principal speaks for another.
ghost use Rattle.std.specs.Prelude.{◌≡◌};
ghost use Rattle.steps.specs.Figure1.{same};

use table::entry::Principal;

// "the same K" (01, code 11)
pub fn speaks_for(k: Principal, l: Principal) -> bool
    ensures { result ≡ same k.0 l.0 }
{
    k == l
}
