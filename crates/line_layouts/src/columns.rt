// The tables of lines.
ghost use Rattle.std.specs.Prelude.{◌≡◌, ◌≤◌, ◌<◌, length, get_or};
ghost use Rattle.line_layouts.specs.Columns.{tag_text, type_of, sub_of, columns, most_columns, no_column, width, bar};
ghost use Rattle.line_layouts.specs.Columns.{order, back};

use super::{Column, Flag, Form, Tag};

pub const SEPARATOR: u8 = b'|';

pub const LINE_FEED: u8 = 10;

pub const CARRIAGE_RETURN: u8 = 13;

// The most columns that a line has.
pub const MOST_COLUMNS: usize = 14;

const HEAD: Column = Column {
    form: Form::U1,
    most: 254,
    required: false,
    flag: Flag::Own,
};

const SITE: Column = Column {
    form: Form::U1,
    most: 255,
    required: false,
    flag: Flag::Beside,
};

const BIN: Column = Column {
    form: Form::U2,
    most: 32767,
    required: true,
    flag: Flag::Never,
};

const COUNT: Column = Column {
    form: Form::U4,
    most: 4294967295,
    required: true,
    flag: Flag::Never,
};

const OPTIONAL: Column = Column {
    form: Form::U4,
    most: 4294967294,
    required: false,
    flag: Flag::Own,
};

const PASS_FAIL: Column = Column {
    form: Form::C1,
    most: 1,
    required: false,
    flag: Flag::Own,
};

const NAME: Column = Column {
    form: Form::Cn,
    most: 255,
    required: false,
    flag: Flag::Own,
};

// A wafer's head may be 255.
const WAFER_HEAD: Column = Column {
    form: Form::U1,
    most: 255,
    required: true,
    flag: Flag::Never,
};

const GROUP: Column = Column {
    form: Form::U1,
    most: 254,
    required: false,
    flag: Flag::Own,
};

const TIME: Column = Column {
    form: Form::Time,
    most: 4294967295,
    required: true,
    flag: Flag::Own,
};

// head, site, parts, then retest, abort, good, functional
const PCR: [Column; 7] = [HEAD, SITE, COUNT, OPTIONAL, OPTIONAL, OPTIONAL, OPTIONAL];

// head, site, bin, count, then P/F and name
const HBR: [Column; 6] = [HEAD, SITE, BIN, COUNT, PASS_FAIL, NAME];

// head, site group, start time, wafer id
const WIR: [Column; 4] = [WAFER_HEAD, GROUP, TIME, NAME];

// head, site group, finish time, parts, then retest, abort, good, functional, four ids and two descriptions
const WRR: [Column; 14] = [
    WAFER_HEAD, GROUP, TIME, COUNT, OPTIONAL, OPTIONAL, OPTIONAL, OPTIONAL, NAME, NAME, NAME, NAME,
    NAME, NAME,
];

// The columns of a line, in the order of the text.
const PCR_ORDER: [usize; 7] = [0, 1, 2, 3, 4, 5, 6];

const HBR_ORDER: [usize; 6] = [0, 1, 2, 3, 4, 5];

const WIR_ORDER: [usize; 4] = [0, 2, 1, 3];

const WRR_ORDER: [usize; 14] = [0, 2, 3, 8, 1, 4, 5, 6, 7, 9, 10, 11, 12, 13];

// For each column its field in the text.
const PCR_BACK: [usize; 7] = [0, 1, 2, 3, 4, 5, 6];

const HBR_BACK: [usize; 6] = [0, 1, 2, 3, 4, 5];

const WIR_BACK: [usize; 4] = [0, 2, 1, 3];

const WRR_BACK: [usize; 14] = [0, 4, 1, 2, 5, 6, 7, 8, 3, 9, 10, 11, 12, 13];

// The columns of a record, in its order.
pub fn columns(tag: Tag) -> &'static [Column]
    ensures all { result.now ≡ columns tag }
    ensures few { length result.now ≤ most_columns }
{
    match tag {
        Tag::Pcr => &PCR,
        Tag::Hbr | Tag::Sbr => &HBR,
        Tag::Wir => &WIR,
        Tag::Wrr => &WRR,
    }
}

pub fn column_count(tag: Tag) -> usize
    ensures { (result ≡ length (columns tag)) × (result ≤ most_columns) }
{
    columns(tag).len()
}

pub fn column_at(tag: Tag, j: usize) -> Column
    requires { j < length (columns tag) }
    ensures { result ≡ get_or (columns tag) j no_column }
{
    columns(tag)[j]
}

// How many fields a record must have.
pub fn bar_of(tag: Tag) -> usize
    ensures { result ≡ bar tag }
{
    match tag {
        Tag::Pcr | Tag::Wir => 3,
        Tag::Hbr | Tag::Sbr | Tag::Wrr => 4,
    }
}

// The column of field number j of a line.
pub fn order_at(tag: Tag, j: usize) -> usize
    requires { j < length (columns tag) }
    ensures { result ≡ get_or (order tag) j 0 }
{
    match tag {
        Tag::Pcr => PCR_ORDER[j],
        Tag::Hbr | Tag::Sbr => HBR_ORDER[j],
        Tag::Wir => WIR_ORDER[j],
        Tag::Wrr => WRR_ORDER[j],
    }
}

// The field of a line that column j is.
pub fn back_at(tag: Tag, j: usize) -> usize
    requires { j < length (columns tag) }
    ensures { result ≡ get_or (back tag) j 0 }
{
    match tag {
        Tag::Pcr => PCR_BACK[j],
        Tag::Hbr | Tag::Sbr => HBR_BACK[j],
        Tag::Wir => WIR_BACK[j],
        Tag::Wrr => WRR_BACK[j],
    }
}

pub const TAGS: [Tag; 5] = [Tag::Pcr, Tag::Hbr, Tag::Sbr, Tag::Wir, Tag::Wrr];

// How a line begins.
pub fn tag_text(tag: Tag) -> &'static [u8]
    ensures { result.now ≡ tag_text tag }
{
    match tag {
        Tag::Pcr => b"PCR:",
        Tag::Hbr => b"HBR:",
        Tag::Sbr => b"SBR:",
        Tag::Wir => b"WIR:",
        Tag::Wrr => b"WRR:",
    }
}

pub fn width_of(form: Form) -> usize
    ensures { (result ≡ width form) × (result ≤ 4) }
{
    match form {
        Form::U1 | Form::C1 | Form::Cn => 1,
        Form::U2 => 2,
        Form::U4 | Form::Time => 4,
    }
}

// REC_TYP
pub fn type_of(tag: Tag) -> u8
    ensures { result ≡ type_of tag }
{
    match tag {
        Tag::Pcr | Tag::Hbr | Tag::Sbr => 1,
        Tag::Wir | Tag::Wrr => 2,
    }
}

// REC_SUB
pub fn sub_of(tag: Tag) -> u8
    ensures { result ≡ sub_of tag }
{
    match tag {
        Tag::Pcr => 30,
        Tag::Hbr => 40,
        Tag::Sbr => 50,
        Tag::Wir => 10,
        Tag::Wrr => 20,
    }
}
