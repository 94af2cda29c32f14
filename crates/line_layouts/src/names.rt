// The bytes of a name: document 01, "Count lines", Written, names.
ghost use Rattle.std.specs.Prelude.{◌≡◌};
ghost use Rattle.prelude.specs.Each.{each};
ghost use Rattle.line_layouts.specs.Names.{allowed};

#[tactic(auto, unfolding(crate::specs::Names::allowed))]
fn is_allowed(sep: u8, b: u8) -> bool
    ensures { result ≡ allowed sep b }
{
    32 <= b && b <= 126 && b != sep
}

// Whether each byte of a part of a source may stand in a name.
pub fn part_allowed(sep: u8, part: &[u8]) -> bool
    ensures { result ≡ each (allowed sep) part.now }
{
    part.iter().all(|b| is_allowed(sep, *b))
}
