// A stream, chunk by chunk. The bytes of an unfinished record stay at the front of the buffer, and the next chunk is
// read behind them: no chunk is copied.
ghost use Rattle.std.specs.Prelude.{◌≡◌, true, None, ◌+◌, ◌≤◌, length};
ghost use Rattle.walking.specs.Lent.{past_count};
ghost use Rattle.following.specs.Lent.{alone_room, kept_from, Right, Begun, Followed};

use crate::Stream;
use cutting::keep;
use house::{House, Room};
use session::Session;
use walking::{Stop, stage_of, standing_of, walk};

// A record of more bytes is too long.
const MOST_LENGTH: usize = 65536;

// What slot 0 sees of a house where it alone is open.
fn alone() -> Room
    ensures { result ≡ alone_room }
{
    Room {
        slot: 0,
        floor: 1024,
        others: 0,
    }
}

// A stream of which nothing has come: slot 0 is open with floor 1,024.
pub fn begin() -> Stream
    ensures { Begun result }
{
    let Session { standing, parts } = Session::begin();
    Stream {
        keys: [0; House::ROWS],
        counts: [0; House::ROWS],
        used: 0,
        guesses: [0; 4096],
        standing,
        parts,
        accepted: 0,
        fate: None,
        held: 0,
    }
}

// Where the bytes begin that are held for the next chunk: none is, once the stream has stopped.
fn kept_from(fate: Option<Stop>, at: usize, end: usize) -> usize
    ensures { result ≡ kept_from fate at end }
{
    match fate {
        None => at,
        Some(_) => end,
    }
}

fn follow_on(s: Stream, buf: &mut [u8], got: usize) -> Stream
    requires { Right s buf.old × (s.fate ≡ None) × (s.held + got ≤ length buf.old)
        × (s.accepted + (s.held + got) ≤ past_count) }
    ensures { Followed s buf.old got result buf.new }
{
    let end = s.held + got;
    let mut next = s;
    let w = walk(
        &mut next.keys,
        &mut next.counts,
        &mut next.guesses,
        &mut next.parts,
        alone(),
        MOST_LENGTH,
        stage_of(s.used, s.standing, s.accepted, None, 0, true),
        &buf[..end],
    );
    Stream {
        used: w.used,
        standing: standing_of(w),
        accepted: w.accepted,
        fate: w.fate,
        held: keep(buf, kept_from(w.fate, w.at, end), end),
        ..next
    }
}

// A chunk more: `got` bytes stand in the buffer behind those that are held.
pub fn follow(s: Stream, buf: &mut [u8], got: usize) -> Stream
    requires { Right s buf.old × (s.held + got ≤ length buf.old)
        × (s.accepted + (s.held + got) ≤ past_count) }
    ensures { Followed s buf.old got result buf.new }
{
    match s.fate {
        None => follow_on(s, buf, got),
        Some(_) => s,
    }
}
