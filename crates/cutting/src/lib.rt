// How a stream is cut into records: document 01, "Tally program", the first record, and "Record frame and kinds",
// REC_LEN. specs/Walk.antt has the walk over any bytes and any state, byte after byte; where the records are heard is
// no business of this crate.
#![tactic(auto)]

ghost use Rattle.std.specs.Prelude.{◌≡◌, ◌-◌, ◌≤◌, length, take, drop};
ghost use Rattle.cutting.specs.Needed.{needed};

use session::{Standing, is_start};

// How many bytes the record that begins here has, as far as these tell.
pub fn needed(st: Standing, bytes: &[u8]) -> usize
    ensures { result ≡ needed st bytes.now }
{
    let place = st.place;
    if is_start(place) {
        return 6;
    }
    if bytes.len() < 4 {
        return 4;
    }
    let order = st.order;
    4 + numbers::u2(order, bytes) as usize
}

// The bytes of a record that is not done with stay at the front for the next chunk. Those that stand there are not moved:
// a long record that comes in many chunks is not copied once for each.
pub fn keep(buf: &mut [u8], at: usize, end: usize) -> usize
    requires { (at ≤ end) × (end ≤ length buf.old) }
    ensures { (result ≡ end - at) × (take result buf.new ≡ take result (drop at buf.old)) }
{
    if at != 0 {
        buf.copy_within(at..end, 0);
    }
    end - at
}
