// A time written as a date: how long its text is, and the text at the start of a lent part.
ghost use Rattle.std.specs.Prelude.{◌≡◌, ◌++◌, ◌≤◌, length};
ghost use Rattle.output.specs.Placed.{Put, Room};
ghost use Rattle.digits.specs.Digits.{digits};
ghost use Rattle.dates.specs.Dates.{Fits, past_hour, past_day, date_text};

use crate::names::letter_of;
use crate::{Moment, moment_of};
use digits::{put_digits, two_of, width};
use output::put_bytes;

// What stands behind the hour, `:23:02 `.
fn past_hour(m: Moment) -> [u8; 7]
    requires { Fits m }
    ensures { result ≡ past_hour m }
{
    let i = two_of(m.minute);
    let s = two_of(m.second);
    [b':', i[0], i[1], b':', s[0], s[1], b' ']
}

// What stands behind the day, `-JUL-1992`.
fn past_day(m: Moment) -> [u8; 9]
    requires { Fits m }
    ensures { result ≡ past_day m }
{
    let n = letter_of(m.month, 0);
    let o = letter_of(m.month, 1);
    let p = letter_of(m.month, 2);
    let c = two_of(m.year / 100);
    let y = two_of(m.year % 100);
    [b'-', n, o, p, b'-', c[0], c[1], y[0], y[1]]
}

// A number without leading zeros, then bytes.
fn put_number(out: &mut [u8], n: u32, bytes: &[u8]) -> usize
    requires { Room (digits n ++ bytes.now) out.old }
    ensures { Put (digits n ++ bytes.now) out.old result out.new }
{
    let k = put_digits(out, n as u64);
    k + put_bytes(&mut out[k..], bytes)
}

// How many bytes the date of a time has.
pub fn date_size(t: u32) -> usize
    ensures { (result ≡ length (date_text t)) × (result ≤ 20) }
{
    let m = moment_of(t);
    width(m.hour) + width(m.day) + 16
}

// Writes the date of a time at the start of the part that is lent. Time 0 is written, too: that it is missing is its
// caller's to judge.
pub fn write_date(out: &mut [u8], t: u32) -> usize
    requires { Room (date_text t) out.old }
    ensures { Put (date_text t) out.old result out.new }
{
    let m = moment_of(t);
    let clock = past_hour(m);
    let calendar = past_day(m);
    let k = put_number(out, m.hour, &clock[..]);
    k + put_number(&mut out[k..], m.day, &calendar[..])
}
