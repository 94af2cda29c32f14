// Streams fed as the network delivers them: document 02, #102, with document 01's order of checks. A feed takes a house by
// value, whatever it is, tests it once, and lends its rows to the records of a whole chunk (crate pouring).
// crates/house/specs/Feeding.antt says what a feed comes to.
#![tactic(auto)]

ghost use Rattle.std.specs.Prelude.{◌≡◌, length};
ghost use Rattle.house.specs.Feeding.{held_in, fed_with, fed_to, feed, end_feed};
ghost use Rattle.feeding.specs.Door.{Cells, Feedable, Unfed};

use answers::Answer;
use house::{Fed, House, Slot};
use pouring::{Pour, answer_of, pour_all};
use session::Session;
use soundness::{open_at, room_of};

fn fed(answer: Answer, taken: usize, house: House) -> Fed
    ensures { result ≡ record { answer = answer; taken = taken; house = house } }
{
    Fed {
        answer,
        taken,
        house,
    }
}

// A slot has 40 cells for its open parts and wafers: its type says so, and no proof sees a type.
fn cells_of(s: Slot) -> bool
    ensures { length s.session.parts ≡ 40 }
{
    s.taken
}

// .. and so has every slot of a house. Nothing is left of this in the program.
fn all_cells(slots: [Slot; House::SLOTS]) -> bool
    ensures { Cells slots }
{
    for s in slots {
        cells_of(s);
    }
    true
}

// The records of a chunk to an open slot of a sound house, of which the test has told how many rows it owes. The rows
// and the parts are lent: each array is copied once.
fn feed_open(house: House, owed: u32, i: usize, s: Slot, carry: &mut [u8], chunk: &[u8]) -> Fed
    requires { Feedable house owed i s carry.old }
    ensures { fed_with result (held_in result.house i carry.new)
        ≡ fed_to house i (held_in house i carry.old) chunk.now }
{
    let room = room_of(&house, owed, i);
    let Session {
        standing,
        mut parts,
    } = s.session;
    let mut guesses = [0u16; 4096];
    let mut laid = house;
    let p = pour_all(
        &mut laid.keys,
        &mut laid.counts,
        &mut guesses,
        &mut parts,
        room,
        Pour {
            used: house.used,
            standing,
            fate: None,
            held: s.held,
            at: 0,
        },
        carry,
        chunk,
    );
    laid.used = p.used;
    laid.slots[i] = Slot {
        session: Session {
            standing: p.standing,
            parts,
        },
        held: p.held,
        ..s
    };
    fed(answer_of(p.fate), p.at, laid)
}

// Feeds a chunk of any length to a slot, over the carry that its session lends.
pub fn feed(house: House, slot: u32, carry: &mut [u8], chunk: &[u8]) -> Fed
    ensures carry_after { fed_with result (held_in result.house slot carry.new)
        ≡ feed house slot carry.old chunk.now }
    ensures kept { Unfed house slot carry.old carry.new }
{
    let (i, owed) = match open_at(&house, slot) {
        Ok(open) => open,
        Err(answer) => return fed(answer, 0, house),
    };
    let s = house.slots[i];
    if carry.len() != House::CARRY {
        return fed(Answer::OutputTooShort, 0, house);
    }
    all_cells(house.slots);
    feed_open(house, owed, i, s, carry, chunk)
}

// Ends feeding: no byte may be held. It changes nothing.
pub fn end_feed(house: House, slot: u32) -> Answer
    ensures { result ≡ end_feed house slot }
{
    let (i, _) = match open_at(&house, slot) {
        Ok(open) => open,
        Err(answer) => return answer,
    };
    if house.slots[i].held != 0 {
        return Answer::NotOneRecord;
    }
    Answer::Done
}
