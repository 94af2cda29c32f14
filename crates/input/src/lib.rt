// Lines of standard input, one after another, over two lent buffers: a chunk as it was read, and the line that is put
// together from chunks. A line longer than its buffer is passed over. No contract can say what is read; how a chunk is
// cut and where its bytes go is promised. `each_line` has a chunk of its own, and is lent the line alone.
#![tactic(auto)]

mod each;

ghost use Rattle.std.specs.Prelude.{◌≡◌, ◌==◌, ◌≤◌, length, position};
ghost use Rattle.output.specs.Placed.{outcome, placed_at};
ghost use Rattle.input.specs.Lines.{up_to};

use answers::Answer;
pub use each::each_line;
use output::put_bytes;
use std::io::Read;

// Of the first `got` bytes of the chunk the last `left` are still to be taken.
#[derive(Clone, Copy)]
pub struct Input {
    pub got: usize,
    pub left: usize,
}

// A line of `long` bytes, without its LF; one that does not fit; or no line, since the input has ended.
#[derive(Clone, Copy)]
pub enum Found {
    Line,
    TooLong,
    End,
}

// What was found, and where the input stands behind it. `long` stands beside it, whatever was found: it says how much of
// the line is lent on.
#[derive(Clone, Copy)]
pub struct Next {
    pub input: Input,
    pub found: Found,
    pub long: usize,
}

// A line of which `long` bytes have come, while it fits. It is going on until its LF, or the input's end, has come.
#[derive(Clone, Copy)]
struct Gathered {
    got: usize,
    left: usize,
    long: usize,
    fits: bool,
    going: bool,
    ended: bool,
}

// Nothing is read yet.
pub fn begin() -> Input
    ensures { (result.got ≡ 0) × (result.left ≡ 0) }
{
    Input { got: 0, left: 0 }
}

// The place of the first `stop`, if there is one.
fn first(bytes: &[u8], stop: u8) -> Option<usize>
    ensures { result ≡ position (λ b. b == stop) bytes.now }
{
    bytes.iter().position(|b| *b == stop)
}

// How many bytes stand before the first `stop`; all of them, where there is none.
pub fn until(bytes: &[u8], stop: u8) -> usize
    ensures { (result ≡ length (up_to stop bytes.now)) × (result ≤ length bytes.now) }
{
    first(bytes, stop).unwrap_or(bytes.len())
}

// Lays bytes behind the first `long` of the line, where they fit.
fn gather(line: &mut [u8], long: usize, bytes: &[u8]) -> Result<usize, Answer>
    ensures { outcome result line.new ≡ placed_at bytes.now line.old long }
{
    if line.len() < long || line.len() - long < bytes.len() {
        return Err(Answer::OutputTooShort);
    }
    Ok(put_bytes(&mut line[long..], bytes))
}

// How many bytes are left behind a line that ends at `end`, and behind its LF.
fn left_behind(bytes: &[u8], end: usize) -> usize
    requires { end ≤ length bytes.now }
{
    (bytes.len() - end).saturating_sub(1)
}

// Takes what these bytes have of the line. A line that did not fit goes on as one of no bytes.
fn take_part(g: Gathered, line: &mut [u8], bytes: &[u8]) -> Gathered
    requires { g.long ≤ length line.old }
    ensures { result.long ≤ length line.new }
{
    let end = until(bytes, b'\n');
    let g = Gathered {
        left: left_behind(bytes, end),
        going: end == bytes.len(),
        ended: false,
        ..g
    };
    match gather(line, g.long, &bytes[..end]) {
        Ok(n) => Gathered {
            long: g.long + n,
            ..g
        },
        Err(_) => Gathered {
            long: 0,
            fits: false,
            ..g
        },
    }
}

// Reads once. A read that gives nothing, or fails, is the end of the input.
fn read_more(stdin: &mut impl Read, g: Gathered, chunk: &mut [u8]) -> Gathered
    ensures { result.long ≡ g.long }
{
    let got = stdin.read(chunk).unwrap_or(0);
    Gathered {
        got,
        left: got,
        going: 0 < got,
        ended: got == 0,
        ..g
    }
}

// The bytes that are left of the chunk, or those of the next one.
fn take_more(stdin: &mut impl Read, g: Gathered, chunk: &mut [u8], line: &mut [u8]) -> Gathered
    requires { g.long ≤ length line.old }
    ensures { result.long ≤ length line.new }
{
    if g.left == 0 || g.got < g.left || chunk.len() < g.got {
        return read_more(stdin, g, chunk);
    }
    take_part(g, line, &chunk[g.got - g.left..g.got])
}

// A proved loop has to end, and nothing says that the input does: the turns are a number that no run uses up.
fn take_line(stdin: &mut impl Read, input: Input, chunk: &mut [u8], line: &mut [u8]) -> Gathered
    ensures { result.long ≤ length line.new }
{
    let mut g = Gathered {
        got: input.got,
        left: input.left,
        long: 0,
        fits: true,
        going: true,
        ended: false,
    };
    for _ in 0..u64::MAX {
        if !g.going {
            break;
        }
        g = take_more(stdin, g, chunk, line);
    }
    g
}

// A last line without LF is a line, if it has a byte.
fn found_of(g: Gathered) -> Found {
    if !g.fits {
        return Found::TooLong;
    }
    if g.ended && g.long == 0 {
        return Found::End;
    }
    Found::Line
}

// The next line, at the start of the lent line.
pub fn next_line(stdin: &mut impl Read, input: Input, chunk: &mut [u8], line: &mut [u8]) -> Next
    ensures { result.long ≤ length line.new }
{
    let g = take_line(stdin, input, chunk, line);
    Next {
        input: Input {
            got: g.got,
            left: g.left,
        },
        found: found_of(g),
        long: g.long,
    }
}
