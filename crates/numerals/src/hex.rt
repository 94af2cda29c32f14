// A word as bytes in hexadecimal.
ghost use Rattle.std.specs.Prelude.{◌≡◌, ◌≤◌, ◌<◌, length, drop, IfSome};
ghost use Rattle.std.specs.List.{list_all};
ghost use Rattle.output.specs.Placed.{Put};
ghost use Rattle.numerals.specs.Hex.{nibble_of, is_nibble, byte_of, is_hex, is_bytes, bytes_of};

use matching::same_bytes;

// A hexadecimal digit's value, in lower case.
#[tactic(auto, unfolding(crate::specs::Hex::nibble_of, digits::specs::Digits::is_digit))]
fn nibble(b: u8) -> Option<u8>
    ensures { (result ≡ nibble_of b) × IfSome result (λ d. d < 16) }
{
    match b {
        b'0'..=b'9' => Some(b - b'0'),
        b'a'..=b'f' => Some(b - b'a' + 10),
        _ => None,
    }
}

// The byte of two digits, which the caller has seen to be digits.
#[tactic(auto, using(crate::proofs::HexLaws::nibble_below), unfolding(crate::specs::Hex::byte_of))]
fn byte_of(high: u8, low: u8) -> u8
    ensures { result ≡ byte_of high low }
{
    nibble(high).unwrap_or(0) * 16 + nibble(low).unwrap_or(0)
}

fn is_nibble(b: u8) -> bool
    ensures { result ≡ is_nibble b }
{
    nibble(b).is_some()
}

fn are_nibbles(word: &[u8]) -> bool
    ensures { result ≡ list_all is_nibble word.now }
{
    word.iter().all(|b| is_nibble(*b))
}

// Whether a word is bytes in hexadecimal, at least one.
#[tactic(auto, using(crate::proofs::HexLaws::each_all), unfolding(crate::specs::Hex::is_hex))]
pub fn is_hex(word: &[u8]) -> bool
    ensures { result ≡ is_hex word.now }
{
    !word.is_empty() && word.len() % 2 == 0 && are_nibbles(word)
}

// Whether a word is bytes, none among them.
#[tactic(auto, unfolding(crate::specs::Hex::is_no_bytes, crate::specs::Hex::is_bytes))]
pub fn is_bytes(word: &[u8]) -> bool
    ensures { result ≡ is_bytes word.now }
{
    same_bytes(word, b"-") || is_hex(word)
}

// Lays the bytes of the digits from `from` on at the line's start: no byte reaches digits that are still to be read.
// Answers how many bytes there are. Of a word that stands for no bytes there is none.
pub fn unhex(line: &mut [u8], from: usize) -> usize
    requires { from ≤ length line.old }
    ensures { Put (bytes_of (drop from line.old)) line.old result line.new
        × (result ≤ length line.new) }
{
    let n = (line.len() - from) / 2;
    for i in 0..n {
        line[i] = byte_of(line[from + 2 * i], line[from + 2 * i + 1]);
    }
    n
}
