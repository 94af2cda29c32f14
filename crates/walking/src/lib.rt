// The records of a stream, one after another, delivered to one slot over lent rows, guesses and parts: document 01,
// "Tally program" and Calls, Deliver. Any slot, any room, and a stream in any chunks: specs/Walking.antt says what a
// walk over bytes comes to. No house is known here.
#![tactic(auto)]

mod passing;
mod steps;

use answers::Answer;
use numbers::Order;
use order::Place;
pub use steps::{stage_of, standing_of, walk};

// Why a walk stopped at a record: it was refused, or is longer than its caller takes.
#[derive(Clone, Copy)]
pub enum Stop {
    Refused(Answer),
    TooLong,
}

// Where the walk over the records of a chunk stands, but for rows, guesses and parts, which are lent: `at` is where the
// next record begins, or the one that stopped the walk, and `more` whether it is to be looked at. The session's
// standing is held field by field: copied whole, with the unused bytes between its fields, it costs more than all else
// that is done for a record.
#[derive(Clone, Copy)]
pub struct Stage {
    pub used: usize,
    pub place: Place,
    pub order: Order,
    pub opened: usize,
    pub pcr: bool,
    pub results: u32,
    pub wafers: usize,
    pub accepted: u64,
    pub fate: Option<Stop>,
    pub at: usize,
    pub more: bool,
}
