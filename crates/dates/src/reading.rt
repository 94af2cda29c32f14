// A date read. The fields are taken from any text without a test, so that nothing is out of bounds; then they have to
// say a time, and the text has to be that time's.
ghost use Rattle.std.specs.Prelude.{◌≡◌, cond, ◌-◌, ◌≤◌, get_or};
ghost use Rattle.matching.specs.Matching.{same};
ghost use Rattle.months.specs.Months.{last_month};
ghost use Rattle.dates.specs.Dates.{month_in, time_of, date_text};
ghost use Rattle.dates.specs.Reading.{digit_at, two_at, number_at, fields_in, Small, date_of};

use crate::Moment;
use crate::names::month_named;
use crate::writing::write_date;
use matching::same_bytes;

// The byte at a place; 0 past the end.
fn byte_at(s: &[u8], i: usize) -> u8
    ensures { result ≡ get_or s.now i 0 }
{
    s.get(i).copied().unwrap_or(0)
}

fn digit_at(s: &[u8], i: usize) -> u32
    ensures { (result ≡ digit_at s.now i) × (result ≤ 255) }
{
    u32::from(byte_at(s, i).saturating_sub(b'0'))
}

fn two_at(s: &[u8], i: usize) -> u32
    requires { i ≤ 100 }
    ensures { (result ≡ two_at s.now i) × (result ≤ 2805) }
{
    digit_at(s, i) * 10 + digit_at(s, i + 1)
}

fn number_at(s: &[u8], i: usize, short: bool) -> u32
    requires { i ≤ 100 }
    ensures { (result ≡ number_at short s.now i) × (result ≤ 2805) }
{
    if short { digit_at(s, i) } else { two_at(s, i) }
}

fn place_of(short: bool, one: usize, other: usize) -> usize
    requires { (one ≤ 9) × (other ≤ 9) }
    ensures { (result ≡ cond short one other) × (result ≤ 9) }
{
    if short { one } else { other }
}

// What stands where a date has its fields.
fn fields_in(s: &[u8]) -> Moment
    ensures { (result ≡ fields_in s.now) × Small result }
{
    let short_hour = byte_at(s, 1) == b':';
    let h = place_of(short_hour, 1, 2);
    let short_day = byte_at(s, h + 8) == b'-';
    let d = h + place_of(short_day, 8, 9);
    Moment {
        year: two_at(s, d + 5) * 100 + two_at(s, d + 7),
        month: month_named(byte_at(s, d + 1), byte_at(s, d + 2), byte_at(s, d + 3)),
        day: number_at(s, h + 7, short_day),
        hour: number_at(s, 0, short_hour),
        minute: two_at(s, h + 1),
        second: two_at(s, h + 4),
    }
}

fn month_in(m: Moment) -> u32
    requires { Small m }
    ensures { result ≡ month_in m }
{
    m.year.saturating_sub(1970) * 12 + m.month
}

// The seconds that the fields say: more than four bytes hold, where they are no date's.
fn time_in(m: Moment, month: u32) -> u64
    requires { (month ≡ month_in m) × (month ≤ last_month) × Small m }
    ensures { result ≡ time_of m }
{
    let days = u64::from(months::first_day(month)) + u64::from(m.day.saturating_sub(1));
    days * 86400 + u64::from(m.hour) * 3600 + u64::from(m.minute) * 60 + u64::from(m.second)
}

// Whether a text is the date of a time, to the last byte.
#[tactic(auto, using(crate::proofs::Laws::date_size))]
fn is_date_of(s: &[u8], t: u32) -> bool
    ensures { result ≡ same s.now (date_text t) }
{
    let mut text = [0u8; 20];
    let n = write_date(&mut text[..], t);
    same_bytes(s, &text[..n])
}

// Reads a date, of any bytes.
pub fn read_date(s: &[u8]) -> Option<u32>
    ensures { result ≡ date_of s.now }
{
    let m = fields_in(s);
    let month = month_in(m);
    if 1633 < month || months::month_length(month) < m.day {
        return None;
    }
    let t = time_in(m, month);
    if t < 1 || 4294967295 < t {
        return None;
    }
    let time = t as u32;
    is_date_of(s, time).then_some(time)
}
