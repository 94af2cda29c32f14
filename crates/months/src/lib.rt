// The calendar that dates are converted by: #103, month lengths with one row for leap years, used both ways. Months
// and days are counted from January 1970. first_day and month_of_day are walks over the months, and nothing else of a
// date is: what takes their place keeps their promises.
#![tactic(auto)]

ghost use Rattle.std.specs.Prelude.{◌≡◌, ◌≤◌, ◌<◌};
ghost use Rattle.months.specs.Months.{leap_row, length_of, first_day, month_of, last_month, last_day};

const LENGTHS: [[u8; 12]; 2] = [
    [31, 28, 31, 30, 31, 30, 31, 31, 30, 31, 30, 31],
    [31, 29, 31, 30, 31, 30, 31, 31, 30, 31, 30, 31],
];

// The row of a year: 1 of a leap year, else 0.
fn leap_row(year: u32) -> usize
    ensures { (result ≡ leap_row year) × (result < 2) }
{
    usize::from(year % 400 == 0 || (year % 100 != 0 && year % 4 == 0))
}

// How many days a month has.
#[tactic(auto, unfolding(crate::specs::Months::length_of))]
pub fn month_length(month: u32) -> u32
    requires { month ≤ 100_000 }
    ensures { result ≡ length_of month }
{
    u32::from(LENGTHS[leap_row(1970 + month / 12)][(month % 12) as usize])
}

// The day on which a month begins.
#[tactic(auto, using(crate::proofs::Laws::first_days))]
pub fn first_day(month: u32) -> u32
    requires { month ≤ last_month }
    ensures { result ≡ first_day month }
{
    let mut day: u32 = 0;
    for i in 0..month {
        day += month_length(i);
    }
    day
}

// The month that a day lies in.
pub fn month_of_day(day: u32) -> u32
    requires { day ≤ last_day }
    ensures { result ≡ month_of day }
{
    let mut month: u32 = 0;
    let mut left = day;
    // No `for`: where the walk ends is what it looks for.
    loop {
        let n = month_length(month);
        if left < n {
            return month;
        }
        left -= n;
        month += 1;
    }
}
