// The house: document 01, "The house, its slots and its rows". Sessions draw rows from one pool, and each has a floor
// of rows that nothing another session does can take. Here are its types; specs/ has the rules and what is proved of
// them over any sequence of calls. The crate lent does what they say over lent rows, the crate calls by value.
#![tactic(auto)]

ghost use Rattle.std.specs.Prelude.{◌≡◌};
ghost use Rattle.house.specs.House.{closed_slot, opened_slot, fresh};

use answers::Answer;
use session::{Session, Standing};

// A slot: closed, or a session with its floor. `held` is how many bytes of its stream wait in the carry that the session
// lends (#102): they go with the carry, and no record is judged by them. `taken` stands beside the rest, and no Option
// around it: a closed slot that holds something is a house's, too, and not sound (`closed_conditions`).
#[derive(Clone, Copy)]
pub struct Slot {
    pub taken: bool,
    pub floor: u32,
    pub session: Session,
    pub held: usize,
}

// The rows in use stand first in both arrays, their keys rising: slot, head, site and bin in one number. Two arrays, and
// none of pairs: keys are searched and tested without their counts. Memory is fixed, so how many are in use is a number.
#[derive(Clone, Copy)]
pub struct House {
    pub keys: [u64; House::ROWS],
    pub counts: [u64; House::ROWS],
    pub used: usize,
    pub slots: [Slot; House::SLOTS],
}

// The answer of a call, and the house after it.
#[derive(Clone, Copy)]
pub struct Answered {
    pub answer: Answer,
    pub house: House,
}

// The answer of a feed (#102), how many bytes of its chunk were taken, and the house after it.
#[derive(Clone, Copy)]
pub struct Fed {
    pub answer: Answer,
    pub taken: usize,
    pub house: House,
}

// The answer of the operator's call, and its figures: 0 where it is refused.
#[derive(Clone, Copy)]
pub struct Figures {
    pub answer: Answer,
    pub free: u32,
    pub promised: u32,
}

// What a slot sees of the house: its number, its floor, and the rows that are promised to all other slots.
#[derive(Clone, Copy)]
pub struct Room {
    pub slot: usize,
    pub floor: u32,
    pub others: u32,
}

// What a record did: the answer, how many rows are in use, and the session's standing.
#[derive(Clone, Copy)]
pub struct Delivered {
    pub answer: Answer,
    pub used: usize,
    pub standing: Standing,
}

// A row of a report: its key and its count.
#[derive(Clone, Copy)]
pub struct Row {
    pub head: u8,
    pub site: u8,
    pub bin: u16,
    pub count: u32,
}

// The answer of a report, and how many rows it wrote: none where it is refused.
#[derive(Clone, Copy)]
pub struct Reported {
    pub answer: Answer,
    pub rows: usize,
}

// A report by value: its rows are the first of as many as a house has.
#[derive(Clone, Copy)]
pub struct Listing {
    pub reported: Reported,
    pub rows: [Row; House::ROWS],
}

impl Slot {
    pub fn closed() -> Slot
        ensures { result ≡ closed_slot }
    {
        Slot {
            taken: false,
            floor: 0,
            session: Session::begin(),
            held: 0,
        }
    }

    pub fn opened(floor: u32) -> Slot
        ensures { result ≡ opened_slot floor }
    {
        Slot {
            taken: true,
            floor,
            ..Slot::closed()
        }
    }
}

impl House {
    pub const ROWS: usize = 1024;

    pub const SLOTS: usize = 16;

    // How long a carry is: the longest record has its header and 65,535 bytes.
    pub const CARRY: usize = 65539;

    // A house with no open slot and every row free.
    pub fn fresh() -> House
        ensures { result ≡ fresh }
    {
        House {
            keys: [0; House::ROWS],
            counts: [0; House::ROWS],
            used: 0,
            slots: [Slot::closed(); House::SLOTS],
        }
    }
}
