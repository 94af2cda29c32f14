// Each line of standard input: read, played, said. A line has room for a record of 65,539 bytes, delivered or fed; a
// longer one is no call, and is passed over. A write that fails ends the desk with its error.
ghost use Rattle.std.specs.Prelude.{◌≤◌, length};

use crate::carries::{Carries, no_carries};
use crate::help::say_help;
use crate::house_calls::house_call;
use asking::Asked;
use house::House;
use input::{Found, each_line};
use line_calls::line_call;
use requests::{Request, read_request};
use std::io;
use std::io::Read;

const LINE: usize = 140000;

// A fresh house says that no carry holds a byte, and so what stands in them is forgotten.
fn answer_asked(
    rt: &impl Print,
    house: House,
    asked: Asked,
    line: &[u8],
    bytes: &[u8],
    carries: &mut Carries,
) -> io::Result<House> {
    match asked {
        Asked::Fresh => {
            println!(rt; "0")?;
            return Ok(House::fresh());
        }
        Asked::Play(call) => return house_call(rt, house, call, bytes, carries),
        Asked::Line(way, order, at, long) => line_call(rt, way, order, at, long, bytes)?,
        Asked::Nothing => println!(rt)?,
        Asked::Comment => {
            rt.write_all(line)?;
            println!(rt)?;
        }
        Asked::Help => say_help(rt)?,
        Asked::NoCall => println!(rt; "?")?,
    }
    Ok(house)
}

// A line that was passed over is no call.
fn request_of(found: Found, line: &mut [u8]) -> Request
    ensures { result.bytes ≤ length line.new }
{
    match found {
        Found::Line => read_request(line),
        _ => Request {
            asked: Asked::NoCall,
            bytes: 0,
        },
    }
}

// One line, without its LF. The bytes that it hands over stand at its start then.
fn answer_line(
    rt: &impl Print,
    house: House,
    found: Found,
    line: &mut [u8],
    carries: &mut Carries,
) -> io::Result<House> {
    let read = request_of(found, line);
    let all = &line[..];
    answer_asked(rt, house, read.asked, all, &all[..read.bytes], carries)
}

pub(crate) fn answer_all(rt: &impl Print, stdin: &mut impl Read) -> io::Result<()> {
    let mut line = [0; LINE];
    let mut carries = no_carries();
    let mut house = House::fresh();
    each_line(stdin, &mut line, |found, line| {
        house = answer_line(rt, house, found, line, &mut carries)?;
        Ok(())
    })
}
