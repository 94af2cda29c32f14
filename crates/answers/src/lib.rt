// The answers of every call: document 01, "Refusal numbers".
#![tactic(auto)]

ghost use Rattle.std.specs.Prelude.{◌≡◌};
ghost use Rattle.answers.specs.Numbers.{saying_of, number_of, OfBytes};

#[derive(Clone, Copy, PartialEq, Eq)]
pub enum Answer {
    Done,
    NoSuchSlot,
    SlotTaken,
    SlotClosed,
    NotOneRecord,
    UnknownOrder,
    WrongVersion,
    UnknownKind,
    BodyMisfit,
    OutOfPlace,
    PartOpen,
    PartNotOpen,
    TooManyParts,
    // The smallest head and site of the parts that are open.
    StillOpen(u8, u8),
    NoRoom,
    TooManyResults,
    NotSound,
    FloorTooHigh,
    OutputTooShort,
    NotACountLine,
    NameNotText,
    NoPcr,
    NoTime,
    WrongWafer,
    TooManyWafers,
    WaferOpen,
}

// An answer's number and its values: a pair, as a row of the table in specs/Numbers.antt is one.
#[derive(Clone, Copy, PartialEq, Eq)]
pub struct Saying(pub u8, pub Option<(u8, u8)>);

// The number that document 01 gives an answer.
pub fn number(a: Answer) -> u8
    ensures { result ≡ number_of a }
{
    match a {
        Answer::Done => 0,
        Answer::NoSuchSlot => 1,
        Answer::SlotTaken => 2,
        Answer::SlotClosed => 2,
        Answer::NotOneRecord => 3,
        Answer::UnknownOrder => 4,
        Answer::WrongVersion => 5,
        Answer::UnknownKind => 6,
        Answer::BodyMisfit => 7,
        Answer::OutOfPlace => 8,
        Answer::PartOpen => 9,
        Answer::PartNotOpen => 10,
        Answer::TooManyParts => 11,
        Answer::StillOpen(_, _) => 12,
        Answer::NoRoom => 13,
        Answer::TooManyResults => 14,
        Answer::NotSound => 15,
        Answer::FloorTooHigh => 16,
        Answer::OutputTooShort => 17,
        Answer::NotACountLine => 18,
        Answer::NameNotText => 19,
        Answer::NoPcr => 20,
        Answer::NoTime => 21,
        Answer::WrongWafer => 22,
        Answer::TooManyWafers => 23,
        Answer::WaferOpen => 33,
    }
}

// The number, and the values that it carries, each of them one byte: answer 12 alone has some.
pub fn said(a: Answer) -> Saying
    ensures { (result ≡ saying_of a) × OfBytes result.1 }
{
    let values = match a {
        Answer::StillOpen(head, site) => Some((head, site)),
        _ => None,
    };
    Saying(number(a), values)
}
