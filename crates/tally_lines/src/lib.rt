// The lines that end a stream: document 01, "Tally program". Each writer puts its bytes at the start of the part that
// it is lent; a row's line goes to an offset.
#![tactic(auto)]

ghost use Rattle.std.specs.Prelude.{◌+◌, ◌*◌, ◌≤◌, length};
ghost use Rattle.output.specs.Placed.{Put, Room};
ghost use Rattle.tally_lines.specs.Lines.{numbered, said, ending, refused_line, too_long_line};
ghost use Rattle.tally_lines.specs.Lines.{unfinished_line, row_line, lines_of};
ghost use Rattle.tally_lines.specs.Writing.{cell, hbr_line, most_line, most_refused, PutLine, LaidAt};

use answers::{Answer, Saying};
use digits::put_digits;
use house::Row;
use line_laying::put_tag;
use line_layouts::Tag;
use line_layouts::columns::{LINE_FEED, SEPARATOR};
use output::{put, put_bytes};

// Words, then a number.
fn put_numbered(out: &mut [u8], words: &[u8], n: u64) -> usize
    requires { Room (numbered words.now n) out.old }
    ensures { Put (numbered words.now n) out.old result out.new }
{
    let k = put_bytes(out, words);
    k + put_digits(&mut out[k..], n)
}

// .. and the end of the line.
fn put_said(out: &mut [u8], words: &[u8], n: u64) -> usize
    requires { Room (said words.now n) out.old }
    ensures { Put (said words.now n) out.old result out.new }
{
    let k = put_numbered(out, words, n);
    k + put(&mut out[k..], [b'\n'])
}

// How a refusal ends: with the part that it names, if it names one.
fn put_ending(out: &mut [u8], values: Option<(u8, u8)>) -> usize
    requires { Room (ending values) out.old }
    ensures { Put (ending values) out.old result out.new }
{
    match values {
        None => put(out, [b'\n']),
        Some((head, site)) => {
            let n = put_numbered(out, b", head ", u64::from(head));
            n + put_said(&mut out[n..], b" site ", u64::from(site))
        }
    }
}

// `refused N at record K`, and of 12 `, head H site S` behind it
pub fn put_refused(out: &mut [u8], answer: Answer, k: u64) -> usize
    requires { most_refused ≤ length out.old }
    ensures { Put (refused_line answer k) out.old result out.new }
{
    let Saying(number, values) = answers::said(answer);
    let mut n = put_numbered(out, b"refused ", u64::from(number));
    n += put_numbered(&mut out[n..], b" at record ", k);
    n + put_ending(&mut out[n..], values)
}

// `too long at record K`
pub fn put_too_long(out: &mut [u8], k: u64) -> usize
    requires { Room (too_long_line k) out.old }
    ensures { Put (too_long_line k) out.old result out.new }
{
    put_said(out, b"too long at record ", k)
}

// `unfinished after record K`
pub fn put_unfinished(out: &mut [u8], k: u64) -> usize
    requires { Room (unfinished_line k) out.old }
    ensures { Put (unfinished_line k) out.old result out.new }
{
    put_said(out, b"unfinished after record ", k)
}

// A number of a row, and the byte behind it.
fn put_cell(out: &mut [u8], n: u64, mark: u8) -> usize
    requires { Room (cell n mark) out.old }
    ensures { Put (cell n mark) out.old result out.new }
{
    let k = put_digits(out, n);
    k + put(&mut out[k..], [mark])
}

// A line of these numbers: of widths that keep it within its room.
fn put_line(out: &mut [u8], head: u8, site: u8, bin: u16, count: u32) -> usize
    requires { most_line ≤ length out.old }
    ensures { PutLine (hbr_line head site bin count) out.old result out.new }
{
    let mut n = put_tag(out, Tag::Hbr);
    n += put_cell(&mut out[n..], u64::from(head), SEPARATOR);
    n += put_cell(&mut out[n..], u64::from(site), SEPARATOR);
    n += put_cell(&mut out[n..], u64::from(bin), SEPARATOR);
    n + put_cell(&mut out[n..], u64::from(count), LINE_FEED)
}

// The HBR line of a row at an offset behind which there is room for it.
pub fn put_row(out: &mut [u8], at: usize, row: Row) -> usize
    requires { at + most_line ≤ length out.old }
    ensures { LaidAt (row_line row) out.old at result out.new }
{
    put_line(&mut out[at..], row.head, row.site, row.bin, row.count)
}

// The lines of rows, one behind another.
pub fn put_rows(out: &mut [u8], rows: &[Row]) -> usize
    requires { most_line * length rows.now ≤ length out.old }
    ensures put { Put (lines_of rows.now) out.old result out.new }
    ensures few { result ≤ most_line * length rows.now }
{
    let mut at: usize = 0;
    for row in rows {
        at += put_row(out, at, *row);
    }
    at
}
