// The calls of the house as a value: document 01, "The house, its slots and its rows", Calls. What reads a call and
// what plays it both stand on this, and neither on the other.
#![tactic(auto)]

// The five calls, each but the figures with its slot: an open with its floor, a report with how many rows it has room
// for; a feed, with how long a carry is lent to it, and the end of feeding (#102). An enum holds no reference, so the
// bytes of a record or a chunk, and the carry, are lent beside it.
#[derive(Clone, Copy)]
pub enum Call {
    Open(u32, u32),
    Deliver(u32),
    Report(u32, usize),
    Close(u32),
    Figures,
    Feed(u32, usize),
    End(u32),
}
