// Houses put together by hand, as a script on standard input: document 01, "The house, its slots and its rows", "A
// house is sound". For each condition a house that breaks it alone, which every call answers with 15, and the sound
// houses at its boundary, which none does. Held to the file stdout. A line is `LABEL: VERB BYTES` (crate case_lines),
// and all words behind the verb are bytes in hexadecimal, numbers high byte first.
//
//     fresh                       a fresh house
//     slot SLOT TAKEN FLOOR SESSION    sets a slot: a byte, 01 where it is open, four bytes, and a session by its bytes
//                                 (fixtures, session_of)
//     rows USED KEY COUNT ..      sets the rows: how many are in use, four bytes; keys and counts of eight bytes each.
//                                 A key is slot, four bytes, then head, site and bin
//     keys USED                   sets the rows: keys of slot 0 that rise from 0, a count of 1 each
//     calls                       what Open of slot 15 with floor 0, Deliver of nothing to slot 0, Report and Close of
//                                 slot 0, and Figures answer
//     deliver RECORD              what Deliver to slot 0 answers
//     held SLOT COUNT             sets how many bytes of a slot's carry are held, four bytes (#102)
//     pour                        what a feed of no byte to slot 0, over a carry of noughts, and the end of feeding answer
#![tactic(auto)]

mod calling;
mod setting;

use calling::{say_calls, say_delivered, say_fed};
use case_lines::play_all;
use house::House;
use setting::{with_held, with_keys, with_rows, with_slot};
use std::io;

// What is asked of a house.
fn ask(rt: &impl Print, house: House, verb: u8, bytes: &[u8]) -> io::Result<()> {
    match verb {
        b'c' => say_calls(rt, house),
        b'd' => say_delivered(rt, house, bytes),
        b'p' => say_fed(rt, house),
        _ => println!(rt; "?"),
    }
}

// The house after a line.
fn play(rt: &impl Print, house: House, verb: u8, bytes: &[u8]) -> io::Result<House> {
    match verb {
        b'f' => Ok(House::fresh()),
        b's' => Ok(with_slot(house, bytes)),
        b'r' => Ok(with_rows(house, bytes)),
        b'k' => Ok(with_keys(house, bytes)),
        b'h' => Ok(with_held(house, bytes)),
        _ => {
            ask(rt, house, verb, bytes)?;
            Ok(house)
        }
    }
}

fn main(rt: HostRuntime) -> io::Result<()> {
    let mut house = House::fresh();
    let mut space = [0u8; 4096];
    play_all(&rt, &mut rt.stdin(), &mut space, |verb, bytes| {
        house = play(&rt, house, verb, bytes)?;
        Ok(())
    })
}
