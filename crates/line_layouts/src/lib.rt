// How lines and their records are laid out, field after field: document 01, "Count lines", and #103.
#![tactic(auto)]

pub mod columns;
pub mod forms;
pub mod judging;
pub mod names;

use columns::MOST_COLUMNS;
use numbers::Order;
use values::Name;

// The lines that are written and read: three of counts, two of wafers.
#[derive(Clone, Copy)]
pub enum Tag {
    Pcr,
    Hbr,
    Sbr,
    Wir,
    Wrr,
}

// The type of a field in a record. A time is a number of four bytes there, and in text a date.
#[derive(Clone, Copy)]
pub enum Form {
    U1,
    U2,
    U4,
    Time,
    C1,
    Cn,
}

// How a field of a record is missing: never; by a value of its own; or with the field before it, beside which it is
// stored as missing and is else a number as any other.
#[derive(Clone, Copy)]
pub enum Flag {
    Never,
    Own,
    Beside,
}

// A field's type, the most that its text may hold, whether text must give it, and how a record leaves it out. The most
// is for a number the greatest value, for P/F and a name the bytes that are kept.
#[derive(Clone, Copy)]
pub struct Column {
    pub form: Form,
    pub most: u32,
    pub required: bool,
    pub flag: Flag,
}

// What a field says: P/F and a name are text, told by its place and its length in a source.
#[derive(Clone, Copy)]
pub enum Said {
    Missing,
    Number(u32),
    Text(Name),
}

// A line or a record, taken apart: fields past the tag's columns are missing.
#[derive(Clone, Copy)]
pub struct Line {
    pub tag: Tag,
    pub fields: [Said; MOST_COLUMNS],
}

// How fields are laid out: as the text of a line, with a byte between them, or as a record in a byte order. An enum, and
// not a trait: `laid_out` and the laws of both are stated once, over either.
#[derive(Clone, Copy)]
pub enum Layout {
    Text(u8),
    Record(Order),
}
