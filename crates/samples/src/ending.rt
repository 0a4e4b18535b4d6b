// Whether a name ends with an ending.
ghost use Rattle.std.specs.Prelude.{◌≡◌};
ghost use Rattle.samples.specs.EndsWith.{ends_with};

pub(crate) fn ends_with(name: &[u8], ending: &[u8]) -> bool
    ensures { result ≡ ends_with name.now ending.now }
{
    name.ends_with(ending)
}
