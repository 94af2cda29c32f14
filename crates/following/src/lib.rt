// One whole stream, followed chunk by chunk: document 01, "Tally program". Its records go to slot 0 of a house that has
// no other slot open. How far it was followed is a function of all bytes, whatever the chunks were:
// specs/Following.antt. What is written at its end is no business of this crate.
#![tactic(auto)]

mod chunks;

pub use chunks::{begin, follow};
use house::House;
use session::Standing;
use walking::Stop;

// A stream as far as it was followed: slot 0's rows and session, the number of records accepted, and how many bytes
// of an unfinished record are held. They stand at the front of the lent buffer. No answer depends on the guesses, by
// which rows are looked for.
#[derive(Clone, Copy)]
pub struct Stream {
    pub keys: [u64; House::ROWS],
    pub counts: [u64; House::ROWS],
    pub used: usize,
    pub guesses: [u16; 4096],
    pub standing: Standing,
    pub parts: [u64; 40],
    pub accepted: u64,
    pub fate: Option<Stop>,
    pub held: usize,
}
