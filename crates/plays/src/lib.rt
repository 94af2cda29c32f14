// One function that plays a call, a value: document 01, "The house, its slots and its rows", Calls; document 02, #102.
// What sits above a house by lines or files (the desk, a replay) makes such a value and says what comes back.
#![tactic(auto)]

ghost use Rattle.std.specs.Prelude.{◌≡◌};
ghost use Rattle.house.specs.History.{Reply};
ghost use Rattle.plays.specs.Plays.{asks, holds, listed_as, fed_as, played, held_by, leaves};

use answers::Answer;
use asked_calls::Call;
use calls::answer_with;
use house::{Answered, Fed, Figures, House, Listing, Row};
use reports::{list_rows, no_rows};

// What a call is answered, and the house after it. Figures, rows and bytes taken are none where it asks for none.
#[derive(Clone, Copy)]
pub struct Played {
    pub answer: Answer,
    pub free: u32,
    pub promised: u32,
    pub count: usize,
    pub taken: usize,
    pub rows: [Row; House::ROWS],
    pub house: House,
}

fn told(done: Answered) -> Played
    ensures { result ≡ holds (Reply.Told done.answer) done.house }
{
    Played {
        answer: done.answer,
        free: 0,
        promised: 0,
        count: 0,
        taken: 0,
        rows: no_rows(),
        house: done.house,
    }
}

fn read(found: Figures, house: House) -> Played
    ensures { result ≡ holds (Reply.Read found) house }
{
    Played {
        free: found.free,
        promised: found.promised,
        ..told(answer_with(found.answer, house))
    }
}

fn listed(list: Listing, house: House) -> Played
    ensures { result ≡ listed_as list house }
{
    let Listing { reported, rows } = list;
    Played {
        count: reported.rows,
        rows,
        ..told(answer_with(reported.answer, house))
    }
}

fn fed(done: Fed) -> Played
    ensures { result ≡ fed_as done }
{
    Played {
        taken: done.taken,
        ..told(answer_with(done.answer, done.house))
    }
}

// Plays a call. The bytes are the record of a delivery or the chunk of a feed, and a feed is lent the carry; no other
// call looks at them. What a feed leaves behind the bytes that are held is no output.
pub fn play(house: House, call: Call, bytes: &[u8], carry: &mut [u8]) -> Played
    ensures value { result ≡ played house carry.old (asks call bytes.now) }
    ensures held { held_by call result.house carry.new
        ≡ leaves house carry.old call bytes.now }
{
    match call {
        Call::Open(slot, floor) => told(calls::open_slot(house, slot, floor)),
        Call::Deliver(slot) => told(deliveries::deliver(house, slot, bytes)),
        Call::Report(slot, long) => listed(list_rows(house, slot, long), house),
        Call::Close(slot) => told(calls::close_slot(house, slot)),
        Call::Figures => read(calls::figures(house), house),
        Call::Feed(slot, _) => fed(feeding::feed(house, slot, carry, bytes)),
        Call::End(slot) => told(answer_with(feeding::end_feed(house, slot), house)),
    }
}
