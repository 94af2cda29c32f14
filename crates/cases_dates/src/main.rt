// Cases of dates, as a script on standard input: #103, dates in text. Held to the file stdout. A line is a verb and
// what it is about; it is copied, and behind it stands what comes of it. Lines that begin with `#`, and empty ones,
// are copied.
//
//     months       of each month its first second and its last, each with its date
//     write TIME   the date of a time
//     read TEXT    the time that a text is the date of
//     cut TEXT     the lengths at which a text, cut short, is a date
//     alter TEXT   at each place, how many of the 256 bytes make the text a date
//
// Each date that is written is read back: what it is read as is said where it is not its time.
#![tactic(auto)]

mod months_listed;
mod reading_back;
mod trying;

ghost use Rattle.std.specs.Prelude.{◌≤◌, length};

use input::each_line;
use numerals::{number_of, up_to};
use script::word_end;
use std::io;

// A number above the last time counts as the last time.
fn say_written(rt: &impl Print, word: &[u8]) -> io::Result<()> {
    print!(rt; " ")?;
    match number_of(word) {
        Some(n) => reading_back::say_date(rt, up_to(n, 4294967295) as u32),
        None => print!(rt; "?"),
    }
}

fn say_time(rt: &impl Print, text: &[u8]) -> io::Result<()> {
    print!(rt; " ")?;
    reading_back::say_read(rt, text)
}

// Where the text of a line starts: behind its verb and a space.
fn text_at(line: &[u8]) -> usize
    ensures { result ≤ length line.now }
{
    line.len().min(word_end(line, 0) + 1)
}

fn answer(rt: &impl Print, verb: u8, text: &mut [u8]) -> io::Result<()> {
    match verb {
        b'm' => months_listed::say_months(rt),
        b'w' => say_written(rt, text),
        b'r' => say_time(rt, text),
        b'c' => trying::say_cuts(rt, text),
        b'a' => trying::say_altered(rt, text),
        _ => print!(rt; " ?"),
    }
}

fn play(rt: &impl Print, line: &mut [u8]) -> io::Result<()> {
    rt.write_all(line)?;
    if line.is_empty() || line[0] == b'#' {
        return println!(rt);
    }
    let verb = line[0];
    let at = text_at(line);
    print!(rt; ":")?;
    answer(rt, verb, &mut line[at..])?;
    println!(rt)
}

fn main(rt: HostRuntime) -> io::Result<()> {
    each_line(&mut rt.stdin(), &mut [0; 4096], |_, line| play(&rt, line))
}
