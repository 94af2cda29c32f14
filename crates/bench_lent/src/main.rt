// Delivers records over lent rows, one after another: what the lent core costs. PIR and PRR pairs under 1,024 keys in no
// order go to one session, many times over.
#![tactic(auto)]

ghost use Rattle.std.specs.Prelude.{◌≡◌, ◌+◌, ◌≤◌, ◌<◌, length};
ghost use Rattle.house.specs.Deliver.{core};
ghost use Rattle.house.specs.Laws.{Lending};

use answers::Answer;
use house::Room;
use lent::deliver_lent;
use numbers::Order;
use order::Place;
use session::Standing;
use std::io;
use transcript::Decimal;

// Records: ten thousand times 1,024 pairs.
const TURNS: u64 = 20480000;

// How many records were accepted, rows used and parts counted.
#[derive(Clone, Copy)]
struct Ran {
    accepted: u64,
    used: usize,
    results: u32,
}

// A PIR and a PRR, 6 and 11 bytes, for one key: head 1, one of 32 sites, one of 32 bins.
fn pair(key: usize) -> [u8; 17]
    requires { key < 1024 }
    ensures { length result ≡ 17 }
{
    let site = (key / 32) as u8;
    let bin = (key % 32) as u8;
    [2, 0, 5, 10, 1, site, 7, 0, 5, 20, 1, site, 0, 0, 0, bin, 0]
}

// A pair for each of 1,024 keys, in no order.
fn pairs() -> [u8; 17408]
    ensures { length result ≡ 17408 }
{
    let mut s = [0u8; 17408];
    for i in 0..1024 {
        s[17 * i..17 * i + 17].copy_from_slice(&pair(i * 389 % 1024));
    }
    s
}

// Where a record ends that begins at `at`: its length is below 256, in its first byte.
fn end_of(stream: &[u8], at: usize) -> usize
    requires { at < length stream.now }
    ensures { (at ≤ result) × (result ≤ length stream.now) }
{
    stream.len().min(at + usize::from(stream[at]) + 4)
}

// Delivers so many records, from the start of the stream again when it ends, to a session that has no row yet.
fn follow(
    keys: &mut [u64],
    counts: &mut [u64],
    guesses: &mut [u16],
    parts: &mut [u64],
    room: Room,
    st: Standing,
    stream: &[u8],
    turns: u64,
) -> Ran
    requires lending { Lending room (core keys.old counts.old 0 st parts.old) 1 }
    requires turns_bound { (turns < 4294967295) × (0 < length stream.now) }
{
    let mut used = 0;
    let mut standing = st;
    let mut accepted = 0;
    let mut at = 0;
    for turn in 0..turns {
        let end = end_of(stream, at);
        let d = deliver_lent(
            keys,
            counts,
            used,
            guesses,
            room,
            standing,
            parts,
            &stream[at..end],
        );
        if d.answer == Answer::Done {
            accepted += 1;
        }
        standing = d.standing;
        used = d.used;
        at = if stream.len() <= end { 0 } else { end };
    }
    Ran {
        accepted,
        used,
        results: standing.results,
    }
}

fn run() -> Ran {
    let mut keys = [0u64; 1024];
    let mut counts = [0u64; 1024];
    let mut guesses = [0u16; 4096];
    let mut parts = [0u64; 40];
    let room = Room {
        slot: 0,
        floor: 1024,
        others: 0,
    };
    let standing = Standing {
        place: Place::Body,
        order: Order::LowFirst,
        opened: 0,
        pcr: false,
        results: 0,
        wafers: 0,
    };
    let stream = pairs();
    follow(
        &mut keys,
        &mut counts,
        &mut guesses,
        &mut parts,
        room,
        standing,
        &stream,
        TURNS,
    )
}

fn main(rt: HostRuntime) -> io::Result<()> {
    let r = run();
    println!(rt;
        "{} {} {}",
        Decimal(r.accepted),
        Decimal(r.used as u64),
        Decimal(r.results.into())
    )
}
