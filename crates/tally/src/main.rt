// The tally program: document 01, "Tally program". One STDF stream on standard input, its text on standard output. All
// that is judged or said is in `following` and `tallying`; this reads and writes. What is promised: the text is that of
// bytes, as many as the reads gave, and a stream that goes on is read to the end of the input (specs/Reading.antt).
#![tactic(auto)]

ghost use Rattle.std.specs.Prelude.{◌≡◌, ◌+◌, ◌≤◌, ◌<◌, length};
ghost use Rattle.tallying.specs.Lined.{most_text};
ghost use Rattle.tally.specs.Reading.{roomy, plenty, more_after, Reads, Through, Told};

use following::{Stream, begin, follow};
use std::io;
use std::io::Read;
use tallying::finish;

// Room for the bytes of an unfinished record, fewer than 65,536, and a chunk behind them.
const BUFFER: usize = 327680;

// More bytes than any run reads.
const PLENTY: u64 = 4611686018427387904;

// What was read: how many bytes in all, how many of them last, and whether more may come.
#[derive(Clone, Copy)]
struct Input {
    read: u64,
    got: usize,
    more: bool,
}

// A stream that was followed to the end of what was read.
#[derive(Clone, Copy)]
struct Ended {
    stream: Stream,
    input: Input,
}

// The text of what was read: its bytes.
#[derive(Clone, Copy)]
struct Text {
    long: usize,
    input: Input,
}

// Whether more may come: not behind a read that gave nothing, nor past what any run reads.
fn more_after(got: usize, read: u64) -> bool
    ensures { result ≡ more_after got read }
{
    0 < got && read < PLENTY
}

// Reads once, behind the bytes that are held. A read that gives nothing, or fails, is the end of the input.
fn read_more(stdin: &mut impl Read, input: Input, buf: &mut [u8], held: usize) -> Input
    requires { (held ≤ length buf.old) × (length buf.old ≡ roomy) × (input.read < plenty) }
    ensures { Reads input held buf.old result buf.new }
{
    let got = stdin.read(&mut buf[held..]).unwrap_or(0);
    let read = input.read + got as u64;
    Input {
        read,
        got,
        more: more_after(got, read),
    }
}

// Chunk after chunk, until the stream stops or the input is at its end.
fn follow_all(stdin: &mut impl Read, buf: &mut [u8]) -> Ended
    requires { length buf.old ≡ roomy }
    ensures { Through result buf.new }
{
    let mut s = begin();
    let mut input = Input {
        read: 0,
        got: 0,
        more: true,
    };
    while input.more && s.fate.is_none() {
        input = read_more(stdin, input, buf, s.held);
        s = follow(s, buf, input.got);
    }
    Ended { stream: s, input }
}

// The whole program but for its write: the text of what is read, at the start of the lent output.
fn tally(stdin: &mut impl Read, buf: &mut [u8], out: &mut [u8]) -> Text
    requires { (length buf.old ≡ roomy) × (most_text ≤ length out.old) }
    ensures { Told out.old result out.new }
{
    let Ended { stream, input } = follow_all(stdin, buf);
    let long = finish(stream, buf, out);
    Text { long, input }
}

fn main(rt: HostRuntime) -> io::Result<()> {
    let mut space = [0u8; BUFFER];
    let mut out = [0u8; 65536];
    let text = tally(&mut rt.stdin(), &mut space, &mut out);
    let written = rt.write_all(&out[..text.long]);
    if written.is_err() {
        rt.eprint("tally: the text could not be written\n")?;
    }
    written
}
