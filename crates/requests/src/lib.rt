// What a whole line of the desk asks for: a call on the house, a call on a record line, or no call.
#![tactic(auto)]

mod cutting;

use asking::Asked;
pub use cutting::read_request;

// What a line asks for, and how many bytes it hands over: they stand at its start.
#[derive(Clone, Copy)]
pub struct Request {
    pub asked: Asked,
    pub bytes: usize,
}
