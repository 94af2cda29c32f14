// Whether a session is sound: document 01, "A house is sound", its conditions on a session, and #103's on open wafers.
ghost use Rattle.std.specs.Prelude.{◌≡◌, ◌≤◌, length};
ghost use Rattle.session.specs.Session.{nothing_yet, may_end, stands_right, kept_right, parts_right, wafers_right};
ghost use Rattle.session.specs.Session.{head_cells, sound};

use crate::{Session, Standing};
use order::Place;

// The least number that is no part: head 255, site 0.
const PAST_PARTS: u64 = 65280;

// A list in the first `used` of some cells: at most so many, rising, each below a bound. It rises, so its last element
// tells of all.
fn kept_right(used: usize, most: usize, bound: u64, cells: &[u64]) -> bool
    requires { most ≤ length cells.now }
    ensures { result ≡ kept_right most bound used cells.now }
{
    used <= most && rising::is_rising(cells, used) && (used == 0 || cells[used - 1] < bound)
}

// Open parts are distinct, at most 32, heads at most 254.
pub fn parts_right(opened: usize, parts: &[u64; Session::CELLS]) -> bool
    ensures { result ≡ parts_right opened parts.now }
{
    kept_right(opened, Session::PARTS, PAST_PARTS, parts)
}

// The heads of the cells that wafers stand in.
fn head_cells(parts: &[u64; Session::CELLS]) -> [u64; Session::WAFERS]
    ensures { result ≡ head_cells parts.now }
{
    let mut heads = [0; Session::WAFERS];
    for i in 0..Session::WAFERS {
        heads[i] = parts[Session::PARTS + i] / 256;
    }
    heads
}

// Open wafers have distinct heads, and are at most 8. Most sessions have none.
pub fn wafers_right(wafers: usize, parts: &[u64; Session::CELLS]) -> bool
    ensures { result ≡ wafers_right wafers parts.now }
{
    wafers == 0 || kept_right(wafers, Session::WAFERS, 256, &head_cells(parts))
}

pub fn nothing_yet(st: Standing) -> bool
    ensures { result ≡ nothing_yet st }
{
    st.opened == 0 && !st.pcr && st.results == 0 && st.wafers == 0
}

fn may_end(st: Standing) -> bool
    ensures { result ≡ may_end st }
{
    st.opened == 0 && st.wafers == 0 && st.pcr
}

// What a place asks of the rest of a session.
pub fn stands_right(st: Standing) -> bool
    ensures { result ≡ stands_right st.place st }
{
    match st.place {
        Place::Start | Place::Header | Place::Lot | Place::Setup => nothing_yet(st),
        Place::Body => true,
        Place::Ended => may_end(st),
    }
}

pub fn is_sound(session: Session) -> bool
    ensures { result ≡ sound session }
{
    parts_right(session.standing.opened, &session.parts)
        && wafers_right(session.standing.wafers, &session.parts)
        && stands_right(session.standing)
}
