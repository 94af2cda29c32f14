// The body of a record walked along the columns of its line, any length of each name: document 01, "Record frame and
// kinds", bodies read. Each reader tells what the field at a place says and where the next one begins.
ghost use Rattle.std.specs.Prelude.{◌≡◌, true, ◌+◌, ◌-◌, ◌≤◌, ◌<◌, length};
ghost use Rattle.line_layouts.specs.Columns.{width};
ghost use Rattle.line_layouts.specs.Fitting.{is_number, is_flag};
ghost use Rattle.line_layouts.specs.Judging.{Held};
ghost use Rattle.line_records.specs.Walks.{meant};
ghost use Rattle.line_records.specs.Records.{body_means};
ghost use Rattle.line_records.specs.Places.{number_in, hidden_said, Stepped, LetterStepped, NameStepped, Going};
ghost use Rattle.line_records.specs.Places.{line_at};

use answers::Answer;
use line_layouts::columns::{MOST_COLUMNS, bar_of, columns, width_of};
use line_layouts::forms::{is_beside, is_name, is_number, is_own, missing_value};
use line_layouts::judging::is_missing;
use line_layouts::{Column, Form, Line, Said, Tag};
use numbers::Order;
use values::Name;

// The number at a place, in the width of its type.
fn number_in(order: Order, form: Form, s: &[u8], at: usize) -> u32
    requires { at + width form ≤ length s.now }
    ensures { result ≡ number_in order form s.now at }
{
    match width_of(form) {
        4 => numbers::u4(order, &s[at..]),
        2 => u32::from(numbers::u2(order, &s[at..])),
        _ => u32::from(s[at]),
    }
}

// Whether a number says that its field is missing.
fn is_flag(column: Column, n: u32) -> bool
    ensures { result ≡ is_flag column.form column.flag n }
{
    is_own(column.flag) && n == missing_value(column.form)
}

fn number_at(order: Order, column: Column, s: &[u8], at: usize) -> Option<(Said, usize)>
    requires { (at ≤ length s.now) × (is_number column.form ≡ true) }
    ensures { Stepped order column s.now at result }
{
    let w = width_of(column.form);
    if s.len() - at < w {
        return None;
    }
    let n = number_in(order, column.form, s, at);
    if is_flag(column, n) {
        Some((Said::Missing, at + w))
    } else if n <= column.most {
        Some((Said::Number(n), at + w))
    } else {
        None
    }
}

// P/F, one byte.
fn letter_at(s: &[u8], at: usize) -> Option<(Said, usize)>
    requires { at < length s.now }
    ensures { LetterStepped s.now at result }
{
    match s[at] {
        b' ' => Some((Said::Missing, at + 1)),
        b'P' | b'F' => Some((Said::Text(Name { at, len: 1 }), at + 1)),
        _ => None,
    }
}

// The name whose count byte stands at a place.
fn name_at(s: &[u8], at: usize, most: usize) -> Option<(Said, usize)>
    requires { at < length s.now }
    ensures { NameStepped most s.now at result }
{
    let len = usize::from(s[at]);
    if len >= s.len() - at {
        None
    } else if len == 0 {
        Some((Said::Missing, at + 1))
    } else if len <= most {
        Some((Said::Text(Name { at: at + 1, len }), at + 1 + len))
    } else {
        None
    }
}

fn field_at(order: Order, column: Column, s: &[u8], at: usize) -> Option<(Said, usize)>
    requires { at < length s.now }
    ensures { Stepped order column s.now at result }
{
    if is_number(column.form) {
        number_at(order, column, s, at)
    } else if is_name(column.form) {
        name_at(s, at, column.most as usize)
    } else {
        letter_at(s, at)
    }
}

// The field at a place, where the body may have stopped: the first `bar` fields must come, and this is number j.
fn step_at(
    order: Order,
    column: Column,
    s: &[u8],
    at: usize,
    j: usize,
    bar: usize,
) -> Option<(Said, usize)>
    requires { at ≤ length s.now }
    ensures { Going order column s.now (bar - j) at result }
{
    if at < s.len() {
        field_at(order, column, s, at)
    } else if j < bar {
        None
    } else {
        Some((Said::Missing, at))
    }
}

// A site is missing with its head, whatever stands there.
fn hide(column: Column, gone: bool, said: Said) -> Said
    ensures { result ≡ hidden_said column gone said }
{
    if is_beside(column.flag) && gone {
        Said::Missing
    } else {
        said
    }
}

pub fn walk(order: Order, tag: Tag, s: &[u8]) -> Result<Line, Answer>
    ensures { Held s.now (line_at order tag s.now)
        (body_means tag (meant order tag s.now)) result }
{
    let bar = bar_of(tag);
    let mut fields = [Said::Missing; MOST_COLUMNS];
    let mut at = 0;
    let mut gone = true;
    for (j, column) in columns(tag).iter().enumerate() {
        let Some((found, next)) = step_at(order, *column, s, at, j, bar) else {
            return Err(Answer::BodyMisfit);
        };
        let said = hide(*column, gone, found);
        fields[j] = said;
        gone = is_missing(said);
        at = next;
    }
    if at < s.len() {
        return Err(Answer::BodyMisfit);
    }
    Ok(Line { tag, fields })
}
