// Delivers two records in turn to a house with 1,000 rows held, by value, a hundred thousand in all: what a call costs.
// Without input both are a PTR, whose body is not read: nearly every record of a real lot. With any input they are the PIR
// and the PRR of a part, which counts a row. It prints the last figures.
#![tactic(auto)]

ghost use Rattle.std.specs.Prelude.{◌≤◌, length};

use fixtures::{rising_keys, standing};
use house::{Figures, House, Slot};
use order::Place;
use session::Session;
use std::io;
use std::io::Read;
use transcript::{AnswerText, Decimal};

const TURNS: u64 = 50000;

fn held() -> House {
    let mut h = House::fresh();
    h.slots[0] = Slot {
        taken: true,
        floor: 1024,
        session: Session {
            standing: standing(Place::Body, 0, false, 1000),
            parts: [0; 40],
        },
        held: 0,
    };
    h.keys = rising_keys();
    h.counts = [1; House::ROWS];
    h.used = 1000;
    h
}

// Both records stand in `recs`, the second from `split` on.
fn deliver_all(house: House, recs: &[u8], split: usize) -> House
    requires { split ≤ length recs.now }
{
    let first = &recs[..split];
    let second = &recs[split..];
    let mut h = house;
    for _ in 0..TURNS {
        h = deliveries::deliver(h, 0, first).house;
        h = deliveries::deliver(h, 0, second).house;
    }
    h
}

fn has_input(stdin: &mut impl Read) -> bool {
    stdin.read(&mut [0]).unwrap_or(0) > 0
}

fn say_figures(rt: &impl Print, found: Figures) -> io::Result<()> {
    println!(rt;
        "{} {} {}",
        AnswerText(found.answer),
        Decimal(found.free.into()),
        Decimal(found.promised.into())
    )
}

fn main(rt: HostRuntime) -> io::Result<()> {
    if has_input(&mut rt.stdin()) {
        let pair = b"\x02\x00\x05\x0a\x00\x00\x07\x00\x05\x14\x00\x00\x00\x00\x00\x05\x00";
        say_figures(&rt, calls::figures(deliver_all(held(), pair, 6)))
    } else {
        let same = b"\x04\x00\x0f\x0a\x00\x00\x00\x00\x04\x00\x0f\x0a\x00\x00\x00\x00";
        say_figures(&rt, calls::figures(deliver_all(held(), same, 8)))
    }
}
