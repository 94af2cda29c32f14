// Fields laid out one after the other, as the text of a line or as a record: document 01, "Count lines", a
// stated offset of the lent output; #103, dates. Each writer gets the part behind what the last one wrote.
#![tactic(auto)]

ghost use Rattle.std.specs.Prelude.{◌≡◌, ◌+◌, ◌-◌, ◌*◌, ◌≤◌, ◌<◌, length};
ghost use Rattle.numbers.specs.Numbers.{written};
ghost use Rattle.output.specs.Placed.{Put, Room, outcome, placed_at};
ghost use Rattle.line_layouts.specs.Columns.{tag_text, columns, most_columns, width};
ghost use Rattle.line_layouts.specs.Entries.{named, entry_of, meaning_of, Within, AllWithin, Nth};
ghost use Rattle.line_layouts.specs.Layouts.{number_text, entry_text, counted_name, counted, stored, mark};
ghost use Rattle.line_layouts.specs.Layouts.{marked, bar_in, column_of, nth_bytes, rest_of, Stops, Sized, head_of};
ghost use Rattle.line_layouts.specs.Layouts.{laid_out};

use answers::Answer;
use line_layouts::columns::{
    LINE_FEED, bar_of, column_at, column_count, order_at, sub_of, tag_text, type_of, width_of,
};
use line_layouts::forms::{is_name, is_time, missing_value};
use line_layouts::judging::{is_missing, said_at};
use line_layouts::{Form, Layout, Line, Said, Tag};
use numbers::Order;
use output::{put, put_bytes, put_part};
use values::Name;

// A number in a line: a time is a date.
fn put_spelt(out: &mut [u8], form: Form, n: u32) -> usize
    requires { Room (number_text form n) out.old }
    ensures { Put (number_text form n) out.old result out.new }
{
    if is_time(form) {
        dates::write_date(out, n)
    } else {
        digits::put_digits(out, u64::from(n))
    }
}

fn spelt_size(form: Form, n: u32) -> usize
    ensures { (result ≡ length (number_text form n)) × (result ≤ 20) }
{
    if is_time(form) {
        dates::date_size(n)
    } else {
        digits::width(n)
    }
}

// An entry in a line.
fn put_entry(out: &mut [u8], form: Form, source: &[u8], said: Said) -> usize
    requires { Within source.now said × Room (entry_text form (entry_of source.now said)) out.old }
    ensures { Put (entry_text form (entry_of source.now said)) out.old result
        out.new }
{
    match said {
        Said::Missing => 0,
        Said::Number(n) => put_spelt(out, form, n),
        Said::Text(name) => put_part(out, source, name.at, name.len),
    }
}

fn entry_size(form: Form, source: &[u8], said: Said) -> usize
    requires { Within source.now said }
    ensures { (result ≡ length (entry_text form (entry_of source.now said))) × (result ≤ 255) }
{
    match said {
        Said::Missing => 0,
        Said::Number(n) => spelt_size(form, n),
        Said::Text(name) => name.len,
    }
}

// A number in the width of a type: its low bytes.
fn put_number(out: &mut [u8], order: Order, form: Form, n: u32) -> usize
    requires { Room (written order (width form) n) out.old }
    ensures { Put (written order (width form) n) out.old result out.new }
{
    let w = width_of(form);
    match w {
        4 => numbers::put_u4(order, out, n),
        2 => numbers::put_u2(order, out, (n % 65536) as u16),
        _ => numbers::put_u1(order, out, (n % 256) as u8),
    }
    w
}

// A name with its count byte.
fn put_name(out: &mut [u8], order: Order, source: &[u8], name: Name) -> usize
    requires { Within source.now (Said.Text name) × Room (counted_name order (named source.now name)) out.old }
    ensures { Put (counted_name order (named source.now name)) out.old result
        out.new }
{
    let n = put_number(out, order, Form::Cn, name.len as u32);
    n + put_part(&mut out[n..], source, name.at, name.len)
}

// Text in a record: a name is counted, P/F is its byte.
fn put_text(out: &mut [u8], order: Order, form: Form, source: &[u8], name: Name) -> usize
    requires { Within source.now (Said.Text name)
        × Room (counted order form (named source.now name)) out.old }
    ensures { Put (counted order form (named source.now name)) out.old result
        out.new }
{
    if is_name(form) {
        put_name(out, order, source, name)
    } else {
        put_part(out, source, name.at, name.len)
    }
}

// An entry in a record.
fn put_stored(out: &mut [u8], order: Order, form: Form, source: &[u8], said: Said) -> usize
    requires { Within source.now said × Room (stored order form (entry_of source.now said)) out.old }
    ensures { Put (stored order form (entry_of source.now said)) out.old result
        out.new }
{
    match said {
        Said::Missing => put_number(out, order, form, missing_value(form)),
        Said::Number(n) => put_number(out, order, form, n),
        Said::Text(name) => put_text(out, order, form, source, name),
    }
}

fn text_size(order: Order, form: Form, source: &[u8], name: Name) -> usize
    requires { Within source.now (Said.Text name) }
    ensures { (result ≡ length (counted order form (named source.now name))) × (result ≤ 256) }
{
    name.len + usize::from(is_name(form))
}

fn stored_size(order: Order, form: Form, source: &[u8], said: Said) -> usize
    requires { Within source.now said }
    ensures { (result ≡ length (stored order form (entry_of source.now said))) × (result ≤ 256) }
{
    match said {
        Said::Missing | Said::Number(_) => width_of(form),
        Said::Text(name) => text_size(order, form, source, name),
    }
}

fn mark_of(sep: u8, last: bool) -> u8
    ensures { result ≡ mark sep last }
{
    if last { LINE_FEED } else { sep }
}

// An entry in a line, and the byte behind it.
fn put_marked(out: &mut [u8], form: Form, source: &[u8], said: Said, sep: u8, last: bool) -> usize
    requires { Within source.now said × Room (marked sep form (entry_of source.now said) last) out.old }
    ensures { Put (marked sep form (entry_of source.now said) last) out.old result
        out.new }
{
    let n = put_entry(out, form, source, said);
    n + put(&mut out[n..], [mark_of(sep, last)])
}

// The column of field number j: a line's fields go in the order of the text.
fn column_of(layout: Layout, tag: Tag, j: usize) -> usize
    requires { j < length (columns tag) }
    ensures { result ≡ column_of layout tag j }
{
    match layout {
        Layout::Text(_) => order_at(tag, j),
        Layout::Record(_) => j,
    }
}

// Field number j of the n that are laid out.
fn put_nth(out: &mut [u8], layout: Layout, source: &[u8], line: Line, j: usize, n: usize) -> usize
    requires { Nth source.now line j n × Room (nth_bytes layout source.now line j n) out.old }
    ensures { Put (nth_bytes layout source.now line j n) out.old result out.new }
{
    let i = column_of(layout, line.tag, j);
    let said = said_at(line, i);
    let form = column_at(line.tag, i).form;
    match layout {
        Layout::Text(sep) => put_marked(out, form, source, said, sep, j + 1 == n),
        Layout::Record(order) => put_stored(out, order, form, source, said),
    }
}

fn nth_size(layout: Layout, source: &[u8], line: Line, j: usize, n: usize) -> usize
    requires { Nth source.now line j n }
    ensures { (result ≡ length (nth_bytes layout source.now line j n)) × (result ≤ 256) }
{
    let i = column_of(layout, line.tag, j);
    let said = said_at(line, i);
    let form = column_at(line.tag, i).form;
    match layout {
        Layout::Text(_) => entry_size(form, source, said) + 1,
        Layout::Record(order) => stored_size(order, form, source, said),
    }
}

// The first n fields, each in the part behind the last one.
fn put_fields(out: &mut [u8], layout: Layout, source: &[u8], line: Line, n: usize) -> usize
    requires { AllWithin source.now line × (n ≤ length (columns line.tag))
        × Room (rest_of layout source.now line 0 n) out.old }
    ensures { Put (rest_of layout source.now line 0 n) out.old result out.new }
{
    let mut k = 0;
    for j in 0..n {
        k += put_nth(&mut out[k..], layout, source, line, j, n);
    }
    k
}

fn fields_size(layout: Layout, source: &[u8], line: Line, n: usize) -> usize
    requires { AllWithin source.now line × (n ≤ length (columns line.tag)) }
    ensures { (result ≡ length (rest_of layout source.now line 0 n)) × (result ≤ 256 * n) }
{
    let mut size = 0;
    for j in 0..n {
        size += nth_size(layout, source, line, j, n);
    }
    size
}

// How many fields a record must have; a line may show none.
fn bar_in(layout: Layout, tag: Tag) -> usize
    ensures { result ≡ bar_in layout tag }
{
    match layout {
        Layout::Text(_) => 0,
        Layout::Record(_) => bar_of(tag),
    }
}

// How many fields are laid out: up to the last present one, and those that must stand.
fn present_count(layout: Layout, line: Line) -> usize
    requires { length line.fields ≡ most_columns }
    ensures { Stops layout line result }
{
    let mut n = bar_in(layout, line.tag);
    for j in n..column_count(line.tag) {
        if !is_missing(said_at(line, column_of(layout, line.tag, j))) {
            n = j + 1;
        }
    }
    n
}

// What a line begins with.
pub fn put_tag(out: &mut [u8], tag: Tag) -> usize
    requires { Room (tag_text tag) out.old }
    ensures { Put (tag_text tag) out.old result out.new }
{
    put_bytes(out, tag_text(tag))
}

// A record's header, before a body of that size.
fn put_header(out: &mut [u8], order: Order, tag: Tag, size: u32) -> usize
    requires { Room (head_of (Layout.Record order) tag size) out.old }
    ensures { Put (head_of (Layout.Record order) tag size) out.old result out.new }
{
    let n = put_number(out, order, Form::U2, size);
    n + put(&mut out[n..], [type_of(tag), sub_of(tag)])
}

fn put_head(out: &mut [u8], layout: Layout, tag: Tag, size: u32) -> usize
    requires { Room (head_of layout tag size) out.old }
    ensures { Put (head_of layout tag size) out.old result out.new }
{
    match layout {
        Layout::Text(_) => put_tag(out, tag),
        Layout::Record(order) => put_header(out, order, tag, size),
    }
}

// The head, then the first n fields, which take `size` bytes.
fn put_all(out: &mut [u8], layout: Layout, source: &[u8], line: Line, n: usize, size: u32) -> usize
    requires { Sized layout source.now line n size
        × Room (laid_out layout (meaning_of source.now line)) out.old }
    ensures { Put (laid_out layout (meaning_of source.now line)) out.old result
        out.new }
{
    let k = put_head(out, layout, line.tag, size);
    k + put_fields(&mut out[k..], layout, source, line, n)
}

// A line or a record at an offset of the lent output.
pub fn place(
    out: &mut [u8],
    at: usize,
    layout: Layout,
    source: &[u8],
    line: Line,
) -> Result<usize, Answer>
    requires { AllWithin source.now line }
    ensures { outcome result out.new
        ≡ placed_at (laid_out layout (meaning_of source.now line)) out.old at }
{
    let n = present_count(layout, line);
    let size = fields_size(layout, source, line, n);
    // A test, and not `get_mut`: no proof is generated of a `match` on a variant that holds a `&mut`.
    if out.len().saturating_sub(at) < size + 4 {
        return Err(Answer::OutputTooShort);
    }
    Ok(put_all(&mut out[at..], layout, source, line, n, size as u32))
}
