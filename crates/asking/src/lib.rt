// What a verb of the desk asks for with the words behind it: a call on the house, a call on a record line, or no call.
// One function for each number of words.
#![tactic(auto)]

mod houses;
mod lines;

ghost use Rattle.std.specs.Prelude.{[], ◌∷◌, ◌≡◌};
ghost use Rattle.asking.specs.Asks.{played, asks};

use asked_calls::Call;
use houses::{close, deliver, end, feed, open, report};
use lines::line_asked;
use numerals::{is_bytes, number_of};
use script::Verb;

// Which way a record line's call goes: a record to its line, or a line to its record.
#[derive(Clone, Copy)]
pub enum Way {
    Write,
    Read,
}

// What a line asks for. The bytes that a delivery, a feed or a record line's call hands over are beside it, as a
// record's are beside its call.
#[derive(Clone, Copy)]
pub enum Asked {
    Nothing,
    Comment,
    Help,
    Fresh,
    Play(Call),
    Line(Way, u8, usize, usize),
    NoCall,
}

// A call on a house, or none.
fn played(call: Option<Call>) -> Asked
    ensures { result ≡ played call }
{
    call.map_or(Asked::NoCall, Asked::Play)
}

pub fn ask_alone(verb: Verb) -> Asked
    ensures { result ≡ asks verb [] }
{
    match verb {
        Verb::Fresh => Asked::Fresh,
        Verb::Figures => Asked::Play(Call::Figures),
        Verb::Help => Asked::Help,
        _ => Asked::NoCall,
    }
}

pub fn ask_one(verb: Verb, word: &[u8]) -> Asked
    ensures { result ≡ asks verb (word.now ∷ []) }
{
    match verb {
        Verb::Close => played(close(number_of(word))),
        Verb::End => played(end(number_of(word))),
        _ => Asked::NoCall,
    }
}

pub fn ask_two(verb: Verb, first: &[u8], second: &[u8]) -> Asked
    ensures { result ≡ asks verb (first.now ∷ second.now ∷ []) }
{
    let slot = number_of(first);
    match verb {
        Verb::Open => played(open(slot, number_of(second))),
        Verb::Deliver => played(deliver(slot, is_bytes(second))),
        Verb::Report => played(report(slot, number_of(second))),
        _ => Asked::NoCall,
    }
}

pub fn ask_three(verb: Verb, first: &[u8], second: &[u8], third: &[u8]) -> Asked
    ensures { result ≡ asks verb (first.now ∷ second.now ∷ third.now ∷ []) }
{
    match verb {
        Verb::Feed => played(feed(number_of(first), number_of(second), is_bytes(third))),
        _ => Asked::NoCall,
    }
}

pub fn ask_four(verb: Verb, order: &[u8], at: &[u8], long: &[u8], hex: &[u8]) -> Asked
    ensures { result ≡ asks verb (order.now ∷ at.now ∷ long.now
        ∷ hex.now ∷ []) }
{
    match verb {
        Verb::Write => line_asked(Way::Write, order, at, long, hex),
        Verb::Read => line_asked(Way::Read, order, at, long, hex),
        _ => Asked::NoCall,
    }
}
