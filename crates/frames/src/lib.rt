// A slice as one record: document 01, "Record frame and kinds", REC_LEN, REC_TYP, REC_SUB.
#![tactic(auto)]

ghost use Rattle.std.specs.Prelude.{◌≡◌};
ghost use Rattle.frames.specs.Frames.{is_record};

use numbers::Order;

// Whether a slice is exactly one record in that byte order; where it is not, the refusal is 3.
#[tactic(auto, unfolding(crate::specs::Frames::is_record))]
pub fn is_record(order: Order, s: &[u8]) -> bool
    ensures { result ≡ is_record order s.now }
{
    4 <= s.len() && s.len() - 4 == usize::from(numbers::u2(order, s))
}
