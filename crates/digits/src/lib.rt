// Decimal text of a number, both ways: document 01, "Count lines", Written, decimal without leading zeros, and Read,
// one to ten digits. #104: written two digits a step, by recursion on the quotient, which falls by a hundred.
#![tactic(auto)]

ghost use Rattle.std.specs.Prelude.{◌≡◌, ◌≤◌, ◌<◌, length};
ghost use Rattle.output.specs.Placed.{Put, Room};
ghost use Rattle.digits.specs.Digits.{digits, two, is_digit, numeral};

use output::put;

// The two digits of a number below a hundred: 7 is `07`.
pub fn two_of(n: u32) -> [u8; 2]
    requires { n < 100 }
    ensures { result ≡ two n }
{
    [(n / 10) as u8 + b'0', (n % 10) as u8 + b'0']
}

fn put_two(out: &mut [u8], n: u32) -> usize
    requires { (n < 100) × Room (two n) out.old }
    ensures { Put (two n) out.old result out.new }
{
    put(out, two_of(n))
}

// A number below a hundred: one digit, or two.
#[tactic(auto, using(crate::proofs::Laws::digits_one, crate::proofs::Laws::digits_two))]
fn put_few(out: &mut [u8], n: u32) -> usize
    requires { (n < 100) × Room (digits n) out.old }
    ensures { Put (digits n) out.old result out.new }
{
    if n < 10 {
        put(out, [n as u8 + b'0'])
    } else {
        put_two(out, n)
    }
}

// A number of at most four digits: a step that needs no call of itself. Most numbers of a listing end here, and a call
// costs as much as two digits do.
fn put_some(out: &mut [u8], n: u32) -> usize
    requires { (n < 10000) × Room (digits n) out.old }
    ensures { Put (digits n) out.old result out.new }
{
    if n < 100 {
        return put_few(out, n);
    }
    let at = put_few(out, n / 100);
    at + put_two(&mut out[at..], n % 100)
}

// A number of three digits or more: those of its hundreds, then two.
fn put_many(out: &mut [u8], n: u64) -> usize
    requires { (100 ≤ n) × Room (digits n) out.old }
    ensures { Put (digits n) out.old result out.new }
{
    let hundreds = n / 100;
    let at = if hundreds < 10000 {
        put_some(out, hundreds as u32)
    } else {
        put_many(out, hundreds)
    };
    at + put_two(&mut out[at..], (n % 100) as u32)
}

// Writes the decimal digits of n at the start of the part that is lent.
pub fn put_digits(out: &mut [u8], n: u64) -> usize
    requires { Room (digits n) out.old }
    ensures { Put (digits n) out.old result out.new }
{
    if n < 10000 {
        put_some(out, n as u32)
    } else {
        put_many(out, n)
    }
}

// How many digits n has. The powers of ten that it reaches are counted, so that a number is divided down once, when it
// is written.
pub fn width(n: u32) -> usize
    ensures { (result ≡ length (digits n)) × (result ≤ 10) }
{
    let wide = n as u64;
    let mut count: usize = 1;
    let mut power: u64 = 10;
    // No `for`: it ends at a power, and not at a count.
    while power <= wide {
        count += 1;
        power *= 10;
    }
    count
}

#[tactic(auto, unfolding(crate::specs::Digits::is_digit))]
fn is_digit(b: u8) -> bool
    ensures { result ≡ is_digit b }
{
    matches!(b, b'0'..=b'9')
}

// Reads a number of one to ten digits, leading zeros allowed.
pub fn read_number(s: &[u8]) -> Option<u64>
    ensures { result ≡ numeral s.now }
{
    if s.is_empty() || 10 < s.len() {
        return None;
    }
    let mut n: u64 = 0;
    for &b in s {
        if !is_digit(b) {
            return None;
        }
        n = n * 10 + u64::from(b - b'0');
    }
    Some(n)
}
