// Records that are accepted unread and change nothing: nearly every record of a lot is one.
ghost use Rattle.std.specs.Prelude.{◌≡◌};
ghost use Rattle.walking.specs.Passing.{is_test};

use order::Place;

// Whether a record is a PTR, MPR or FTR in the body: they are passed over with no search for their kind.
#[tactic(auto, unfolding(crate::specs::Passing::is_test))]
pub(crate) fn is_test(place: Place, typ: u8, sub: u8) -> bool
    ensures { result ≡ is_test place typ sub }
{
    typ == 15 && matches!(sub, 10 | 15 | 20) && place == Place::Body
}
