// Dates in text, both ways: #103, `8:23:02 23-JUL-1992` is 711,879,782. The calendar is crate months'. A text is read
// by taking the bytes where a date has its fields, and comparing it with what their time is written as: so exactly
// the dates that are written are read, and no rule is said twice.
#![tactic(auto)]

mod names;
mod reading;
mod writing;

ghost use Rattle.std.specs.Prelude.{◌≡◌};
ghost use Rattle.dates.specs.Dates.{moment_of, Fits};

pub use reading::read_date;
pub use writing::{date_size, write_date};

// The fields of a date, the months of a year counted from 0.
#[derive(Clone, Copy)]
pub struct Moment {
    pub year: u32,
    pub month: u32,
    pub day: u32,
    pub hour: u32,
    pub minute: u32,
    pub second: u32,
}

// The fields of a time's date.
pub(crate) fn moment_of(t: u32) -> Moment
    ensures { (result ≡ moment_of t) × Fits result }
{
    let month = months::month_of_day(t / 86400);
    let first = months::first_day(month);
    Moment {
        year: 1970 + month / 12,
        month: month % 12,
        day: t / 86400 - first + 1,
        hour: t % 86400 / 3600,
        minute: t % 3600 / 60,
        second: t % 60,
    }
}
