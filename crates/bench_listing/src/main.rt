// Lists 1,024 rows as HBR lines, ten thousand times over: what a listing costs. Bins rise, and counts have one to ten
// digits. It prints the bytes of all listings, and below that the text of the last one.
#![tactic(auto)]

ghost use Rattle.std.specs.Prelude.{◌*◌, ◌≤◌, ◌<◌, length};
ghost use Rattle.tally_lines.specs.Writing.{most_line};

use house::Row;
use std::{array, io};
use tally_lines::put_rows;
use transcript::Decimal;

// Listings.
const TURNS: u64 = 10000;

// A count of one to ten digits: a number that fills four bytes, cut, and at least 1.
fn count_at(i: usize) -> u32
    requires { i < 1024 }
{
    let mut n = (i as u64 + 1) * 2654435761 % 4294967295;
    for _ in 0..i % 10 {
        n /= 10;
    }
    n as u32 + 1
}

fn row_at(i: usize) -> Row
    requires { i < 1024 }
{
    Row {
        head: 1,
        site: (i / 32) as u8,
        bin: (i % 32 * 1000) as u16,
        count: count_at(i),
    }
}

fn main(rt: HostRuntime) -> io::Result<()> {
    let all: [Row; 1024] = array::from_fn(row_at);
    let mut out = [0u8; 65536];
    let mut bytes = 0;
    let mut last = 0;
    for turn in 0..TURNS {
        last = put_rows(&mut out, &all);
        bytes += last as u64;
    }
    println!(rt; "{}", Decimal(bytes))?;
    rt.write_all(&out[..last])
}
