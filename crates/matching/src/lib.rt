// Two texts compared to their last byte: no rule of its own. What a text means is its reader's to say.
#![tactic(auto)]

ghost use Rattle.std.specs.Prelude.{◌≡◌};
ghost use Rattle.matching.specs.Matching.{same};

// Whether two texts are the same.
pub fn same_bytes(one: &[u8], other: &[u8]) -> bool
    ensures { result ≡ same one.now other.now }
{
    one == other
}
