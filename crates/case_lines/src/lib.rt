// A line of a case script, `LABEL: VERB BYTES`: the label is copied to the transcript up to its colon, and what the
// call answers stands behind it. A line without a label only sets something up. A verb is known by its first letter.
// Bytes are words in lower case hexadecimal, one behind the other; `HEX*N` is such a word N times, and a word that is
// neither is said as `?`. Lines that begin with `#`, and empty ones, are copied. A write that fails is answered with its
// error: the lent buffers keep their lengths, and what stands in them is left open.
#![tactic(auto)]

mod field;

ghost use Rattle.std.specs.Prelude.{◌≡◌, ◌+◌, ◌≤◌, length, IfSome, IfOk, OnErr};

pub use field::Field;
use input::{Found, each_line, until};
use numerals::{is_hex, number_of, unhex};
use script::word_end;
use std::io;
use std::io::Read;

// The letter of a call's verb, and how many bytes it has.
#[derive(Clone, Copy)]
struct Call {
    verb: u8,
    bytes: usize,
}

// Lays a word's bytes so many times behind the first `n` of the output, while there is room.
fn lay(word: &[u8], times: u64, out: &mut [u8], n: usize) -> usize
    requires { n ≤ length out.old }
    ensures { result ≤ length out.new }
{
    let mut end = n;
    for _ in 0..times {
        if out.len() - end < word.len() {
            break;
        }
        out[end..end + word.len()].copy_from_slice(word);
        end += word.len();
    }
    end
}

// How many times a word is laid: the number behind its star, once without one.
fn times_of(word: &[u8], star: usize) -> u64
    requires { star ≤ length word.now }
{
    match word.get(star + 1..) {
        Some(digits) => number_of(digits).unwrap_or(0),
        None => 1,
    }
}

fn lay_word(rt: &impl Print, word: &mut [u8], out: &mut [u8], n: usize) -> io::Result<usize>
    requires { n ≤ length out.old }
    ensures { IfOk result (λ r. r ≤ length out.new) }
{
    let star = until(word, b'*');
    let times = times_of(word, star);
    if !is_hex(&word[..star]) {
        print!(rt; "?")?;
        return Ok(n);
    }
    let long = unhex(&mut word[..star], 0);
    Ok(lay(&word[..long], times, out, n))
}

// Lays the bytes of all words from `from` on, and answers how many they are.
fn lay_words(rt: &impl Print, line: &mut [u8], from: usize, out: &mut [u8]) -> io::Result<usize>
    requires { from ≤ length line.old + 1 }
    ensures { IfOk result (λ r. r ≤ length out.new) }
{
    let mut at = from;
    let mut n = 0;
    while at < line.len() {
        let end = word_end(line, at);
        n = lay_word(rt, &mut line[at..end], out, n)?;
        at = end + 1;
    }
    Ok(n)
}

// Where the call of a line starts: behind the colon and the space that end its label, if it has one.
fn call_at(rt: &impl Print, line: &[u8]) -> io::Result<usize>
    ensures { IfOk result (λ r. r ≤ length line.now) }
{
    let colon = until(line, b':');
    if line.len() - colon < 2 {
        return Ok(0);
    }
    rt.write_all(&line[..colon + 1])?;
    Ok(colon + 2)
}

// A line that asks for something: its verb, and the bytes behind it.
fn take_call(rt: &impl Print, line: &mut [u8], out: &mut [u8]) -> io::Result<Option<Call>>
    ensures { IfOk result (λ r. IfSome r (λ c. c.bytes ≤ length out.new)) }
{
    let at = call_at(rt, line)?;
    let Some(verb) = line.get(at).copied() else {
        return Ok(None);
    };
    let end = word_end(line, at);
    let bytes = lay_words(rt, line, end + 1, out)?;
    if verb == 0 {
        return Ok(None); // a NUL is no verb's letter
    }
    Ok(Some(Call { verb, bytes }))
}

// The call of a line, its label said and its bytes laid at the start of the output; none of a line to copy.
fn take_line(rt: &impl Print, line: &mut [u8], out: &mut [u8]) -> io::Result<Option<Call>>
    ensures found { IfOk result (λ r. IfSome r (λ c. c.bytes ≤ length out.new)) }
    ensures failed { OnErr result (length out.new ≡ length out.old) }
{
    if line.is_empty() || line[0] == b'#' {
        rt.write_all(line)?;
        println!(rt)?;
        return Ok(None);
    }
    take_call(rt, line, out)
}

// A line, and its call played, if it is one. One that is too long is none.
fn play_line<F: FnMut(u8, &[u8]) -> io::Result<()>>(
    rt: &impl Print,
    found: Found,
    line: &mut [u8],
    bytes: &mut [u8],
    play: &mut F,
) -> io::Result<()>
    requires { (state : F) (verb : _) (part : _) → F.pre state verb part }
{
    if !matches!(found, Found::Line) {
        return println!(rt; "?");
    }
    match take_line(rt, line, bytes)? {
        Some(call) => play(call.verb, &bytes[..call.bytes]),
        None => Ok(()),
    }
}

// Gives the verb and the bytes of each call to `play`, up to the script's end or an error. There is room for as many
// bytes of a call as are lent.
pub fn play_all<F: FnMut(u8, &[u8]) -> io::Result<()>>(
    rt: &impl Print,
    stdin: &mut impl Read,
    bytes: &mut [u8],
    mut play: F,
) -> io::Result<()>
    requires { (state : F) (verb : _) (part : _) → F.pre state verb part }
{
    let mut line = [0u8; 4096];
    each_line(
        stdin,
        &mut line,
        |found, line|
            requires { (state : F) (verb : _) (part : _) → F.pre state verb part }
        { play_line(rt, found, line, bytes, &mut play) },
    )
}
