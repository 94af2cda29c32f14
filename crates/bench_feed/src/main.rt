// Feeds standard input to slot 0 of a house, by value, a call for each chunk, up to its end or the first refusal: what
// feeds cost. The first four bytes of the input, high byte first, say how many bytes a chunk has. It prints the last
// answer, the bytes taken, what the end of feeding is answered, and free and promised rows; below that the rows, as the
// tally program writes them.
#![tactic(auto)]

ghost use Rattle.std.specs.Prelude.{◌*◌, ◌≤◌, length};
ghost use Rattle.tally_lines.specs.Writing.{most_line};

use answers::{Answer, number};
use feeding::{end_feed, feed};
use house::{Fed, House};
use reports::list_rows;
use std::io;
use std::io::Read;
use tally_lines::put_rows;
use transcript::Decimal;

const MOST_CHUNK: usize = 262144;

// What was fed: all bytes taken, and the last answer.
#[derive(Clone, Copy)]
struct Feeding {
    taken: u64,
    last: Fed,
}

// Reads until the bytes are all there, or the input ends. A read that fails is its end.
fn read_full(stdin: &mut impl Read, bytes: &mut [u8]) {
    let mut done = 0;
    while done < bytes.len() {
        let got = stdin.read(&mut bytes[done..]).unwrap_or(0);
        if got == 0 {
            return;
        }
        done += got;
    }
}

fn chunk_size(stdin: &mut impl Read) -> usize
    ensures { result ≤ 262144 }
{
    let mut four = [0; 4];
    read_full(stdin, &mut four);
    MOST_CHUNK.min(u32::from_be_bytes(four) as usize)
}

// A proved loop has to end, and nothing says that the input does: the turns are a number that no run uses up. The sum of
// the bytes taken stays at the greatest number, which no run reaches.
fn feed_all(stdin: &mut impl Read, house: House, carry: &mut [u8], buf: &mut [u8]) -> Feeding {
    let mut taken = 0u64;
    let mut last = Fed {
        answer: Answer::Done,
        taken: 0,
        house,
    };
    for _ in 0..u64::MAX {
        let got = stdin.read(buf).unwrap_or(0);
        last = feed(last.house, 0, carry, &buf[..got]);
        taken = taken.saturating_add(last.taken as u64);
        if got == 0 || last.answer != Answer::Done {
            break;
        }
    }
    Feeding { taken, last }
}

fn say_rows(rt: &impl Print, out: &mut [u8], house: House) -> io::Result<()>
    requires { most_line * 1024 ≤ length out.old }
{
    let list = list_rows(house, 0, 1024);
    let n = put_rows(out, &list.rows[..list.reported.rows]);
    rt.write_all(&out[..n])
}

fn say_end(rt: &impl Print, f: Feeding) -> io::Result<()> {
    let house = f.last.house;
    let found = calls::figures(house);
    println!(rt;
        "{} {} {} {} {}",
        Decimal(number(f.last.answer).into()),
        Decimal(f.taken),
        Decimal(number(end_feed(house, 0)).into()),
        Decimal(found.free.into()),
        Decimal(found.promised.into())
    )
}

fn main(rt: HostRuntime) -> io::Result<()> {
    let mut stdin = rt.stdin();
    let mut carry = [0; House::CARRY];
    let mut space = [0; MOST_CHUNK];
    let mut out = [0; 65536];
    let n = chunk_size(&mut stdin);
    let opened = calls::open_slot(House::fresh(), 0, 1024).house;
    let f = feed_all(&mut stdin, opened, &mut carry, &mut space[..n]);
    say_end(&rt, f)?;
    say_rows(&rt, &mut out, f.last.house)
}
