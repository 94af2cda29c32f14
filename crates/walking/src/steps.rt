// The records that are there whole, one after another: nothing is copied and nothing is tested twice.
ghost use Rattle.std.specs.Prelude.{◌≡◌, true, false, ◌+◌, ◌≤◌, length};
ghost use Rattle.cutting.specs.Needed.{needed};
ghost use Rattle.walking.specs.Walking.{stage, stage_standing, rest};
ghost use Rattle.walking.specs.Lent.{Walkable, Stepped, Arrived};

use crate::passing::is_test;
use crate::{Stage, Stop};
use answers::Answer;
use cutting::needed;
use house::Room;
use lent::deliver_lent;
use session::Standing;

pub fn standing_of(s: Stage) -> Standing
    ensures { result ≡ stage_standing s }
{
    Standing {
        place: s.place,
        order: s.order,
        opened: s.opened,
        pcr: s.pcr,
        results: s.results,
        wafers: s.wafers,
    }
}

// A stage, from a whole standing.
pub fn stage_of(
    used: usize,
    st: Standing,
    accepted: u64,
    fate: Option<Stop>,
    at: usize,
    more: bool,
) -> Stage
    ensures { result ≡ stage used st accepted fate at more }
{
    Stage {
        used,
        place: st.place,
        order: st.order,
        opened: st.opened,
        pcr: st.pcr,
        results: st.results,
        wafers: st.wafers,
        accepted,
        fate,
        at,
        more,
    }
}

// No further: at a record that is not whole, or that stops the walk.
fn stay(s: Stage, fate: Option<Stop>) -> Stage
    ensures { result ≡ stage s.used (stage_standing s) s.accepted fate s.at false }
{
    Stage {
        fate,
        more: false,
        ..s
    }
}

// A record that is there, of n bytes. Where the walk goes on, its stage is written out, here and below: through a call
// a lot of tests takes a tenth more instructions.
fn take_record(
    keys: &mut [u64],
    counts: &mut [u64],
    guesses: &mut [u16],
    parts: &mut [u64],
    room: Room,
    most: usize,
    s: Stage,
    bytes: &[u8],
    n: usize,
) -> Stage
    requires walkable { Walkable room most keys.old counts.old parts.old s bytes.now × (s.more ≡ true) }
    requires n_value { (n ≡ needed (stage_standing s) (rest s bytes.now)) × (n ≤ most)
        × (s.at + n ≤ length bytes.now) }
    ensures { Stepped room most keys.old counts.old parts.old s
        keys.new counts.new parts.new result bytes.now }
{
    let at = s.at;
    let next = at + n;
    let d = deliver_lent(
        keys,
        counts,
        s.used,
        guesses,
        room,
        standing_of(s),
        parts,
        &bytes[at..next],
    );
    let st = d.standing;
    match d.answer {
        Answer::Done => Stage {
            used: d.used,
            place: st.place,
            order: st.order,
            opened: st.opened,
            pcr: st.pcr,
            results: st.results,
            wafers: st.wafers,
            accepted: s.accepted + 1,
            fate: None,
            at: next,
            more: true,
        },
        refused => {
            let why = Some(Stop::Refused(refused));
            stage_of(d.used, st, s.accepted, why, at, false)
        }
    }
}

// The record at `at`, if it is there whole.
fn step(
    keys: &mut [u64],
    counts: &mut [u64],
    guesses: &mut [u16],
    parts: &mut [u64],
    room: Room,
    most: usize,
    s: Stage,
    bytes: &[u8],
) -> Stage
    requires { Walkable room most keys.old counts.old parts.old s bytes.now × (s.more ≡ true) }
    ensures { Stepped room most keys.old counts.old parts.old s
        keys.new counts.new parts.new result bytes.now }
{
    let at = s.at;
    let n = needed(standing_of(s), &bytes[at..]);
    if most < n {
        return stay(s, Some(Stop::TooLong));
    }
    if bytes.len() - at < n {
        return stay(s, None);
    }
    if is_test(s.place, bytes[at + 2], bytes[at + 3]) {
        return Stage {
            accepted: s.accepted + 1,
            fate: None,
            at: at + n,
            ..s
        };
    }
    take_record(keys, counts, guesses, parts, room, most, s, bytes, n)
}

// All records that are there whole, up to the first that stops the walk.
pub fn walk(
    keys: &mut [u64],
    counts: &mut [u64],
    guesses: &mut [u16],
    parts: &mut [u64],
    room: Room,
    most: usize,
    from: Stage,
    bytes: &[u8],
) -> Stage
    requires { Walkable room most keys.old counts.old parts.old from bytes.now × (from.more ≡ true) }
    ensures { Arrived room most keys.old counts.old parts.old from
        keys.new counts.new parts.new result bytes.now }
{
    let mut s = from;
    while s.more {
        s = step(keys, counts, guesses, parts, room, most, s, bytes);
    }
    s
}
