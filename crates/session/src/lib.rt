// A session: document 01, "The house, its slots and its rows", an open slot without its rows; and what a record may do
// to one, as a verdict says it. Nothing here knows of a house: whether there is room (13) is judged elsewhere, and
// last.
#![tactic(auto)]

mod sound;

ghost use Rattle.std.specs.Prelude.{◌≡◌};
ghost use Rattle.session.specs.Session.{is_start, begun};
ghost use Rattle.session.specs.Verdicts.{verdict_answer};

use answers::Answer;
use numbers::Order;
use order::Place;
pub use sound::{is_sound, nothing_yet, parts_right, stands_right, wafers_right};

// A session but for its lists of open parts and of open wafers, of which it has the numbers: what most records change,
// if anything.
#[derive(Clone, Copy)]
pub struct Standing {
    pub place: Place,
    pub order: Order,
    pub opened: usize,
    pub pcr: bool,
    pub results: u32,
    pub wafers: usize,
}

// The open parts stand rising in the first `opened` of PARTS cells, each as head * 256 + site; the open wafers in the
// first `wafers` of the WAFERS cells behind those, in rising order of head, each as head * 256 + site group. One row of
// cells, so that what is lent of a session is one slice.
#[derive(Clone, Copy)]
pub struct Session {
    pub standing: Standing,
    pub parts: [u64; Session::CELLS],
}

// What an accepted record makes of a session: its standing after it, `next`, and what becomes of its open parts and
// wafers. Those that judge and settle alone look into it: a house hands it back to be settled, so that a kind with an
// effect of its own is no business of a house.
#[derive(Clone, Copy)]
pub enum Change {
    // The parts and the wafers stay.
    Stands(Standing),
    // A part opens, at its rank among the open ones.
    Opens {
        next: Standing,
        rank: usize,
        part: u64,
    },
    // The part at a rank closes.
    Closes {
        next: Standing,
        rank: usize,
    },
    // A wafer opens, at the rank of its head among those of the open ones.
    WaferOpens {
        next: Standing,
        rank: usize,
        wafer: u64,
    },
    // The wafer at a rank closes.
    WaferCloses {
        next: Standing,
        rank: usize,
    },
}

// What a record does to a session.
#[derive(Clone, Copy)]
pub enum Verdict {
    // Refused, with its number.
    Refused(Answer),
    // Accepted.
    Taken(Change),
    // A part result that asks for a row under this key: it changes the session if the row is granted.
    Wanted(Change, u32),
}

// Whether a stream has not begun: its first record is judged by rules of its own.
pub fn is_start(place: Place) -> bool
    ensures { result ≡ is_start place }
{
    place == Place::Start
}

// The answer of a verdict. A part result that passes all checks but the last is still to be judged for room.
pub fn verdict_answer(verdict: Verdict) -> Answer
    ensures { result ≡ verdict_answer verdict }
{
    match verdict {
        Verdict::Refused(answer) => answer,
        Verdict::Taken(_) | Verdict::Wanted(_, _) => Answer::Done,
    }
}

impl Session {
    // The most open parts, and the most open wafers.
    pub const PARTS: usize = 32;

    pub const WAFERS: usize = 8;

    // The cells of both.
    pub const CELLS: usize = 40;

    // A session that has followed nothing yet.
    pub fn begin() -> Session
        ensures { result ≡ begun }
    {
        Session {
            standing: Standing {
                place: Place::Start,
                order: Order::HighFirst,
                opened: 0,
                pcr: false,
                results: 0,
                wafers: 0,
            },
            parts: [0; Session::CELLS],
        }
    }
}
