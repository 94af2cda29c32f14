// The calls on record lines as the desk makes them: `write`, a record to its line, and `read`, a line to its record; and
// what is written of them. Document 01, "Count lines". No contract can say what is written to standard output, so
// nothing is promised here but safety. A write that fails is answered with its error.
#![tactic(auto)]

ghost use Rattle.std.specs.Prelude.{◌<◌, ◌≤◌, length};

use asking::Way;
use std::{fmt, io, str};
use transcript::{AnswerText, Decimal};

// As many bytes as can be lent.
const LONGEST: usize = 4096;

// As many bytes as are written at a time: byte by byte, the formatter costs more than all else of a call.
const PIECE: usize = 256;

fn hex_digit(four_bits: u8) -> u8
    requires { four_bits < 16 }
{
    if four_bits < 10 {
        b'0' + four_bits
    } else {
        b'a' + (four_bits - 10)
    }
}

// Lays two digits for each byte, and answers how many they are.
fn lay_hex(text: &mut [u8; 2 * PIECE], bytes: &[u8]) -> usize
    requires { length bytes.now ≤ 256 }
    ensures { result ≤ 512 }
{
    for (i, byte) in bytes.iter().enumerate() {
        text[2 * i] = hex_digit(byte / 16);
        text[2 * i + 1] = hex_digit(byte % 16);
    }
    2 * bytes.len()
}

// Bytes as the desk writes them: two digits for each, `-` for none.
#[derive(Clone, Copy)]
struct Hex<'a>(&'a [u8]);

impl fmt::Display for Hex<'_> {
    fn fmt<W: fmt::Write>(&self, f: &mut fmt::Formatter<W>) -> fmt::Result {
        if self.0.is_empty() {
            return f.write_str("-");
        }
        let mut text = [0; 2 * PIECE];
        for bytes in self.0.chunks(PIECE) {
            let long = lay_hex(&mut text, bytes);
            f.write_str(str::from_utf8(&text[..long]).map_err(|_| fmt::Error)?)?;
        }
        Ok(())
    }
}

// Lends `long` bytes, and says the answer, after a 0 the number of bytes that were written, and every byte that was lent.
// No request asks for more than there are.
pub fn line_call(
    rt: &impl Print,
    way: Way,
    order: u8,
    at: usize,
    long: usize,
    bytes: &[u8],
) -> io::Result<()> {
    let mut space = [0xAA; LONGEST];
    let Some(out) = space.get_mut(..long) else {
        return Ok(());
    };
    let written = match way {
        Way::Write => lines::write_line(order, bytes, out, at),
        Way::Read => lines::read_line(order, bytes, out, at),
    };
    match written {
        Ok(n) => println!(rt; "0 {} {}", Decimal(n as u64), Hex(out)),
        Err(refusal) => println!(rt; "{} {}", AnswerText(refusal), Hex(out)),
    }
}
