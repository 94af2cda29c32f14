// All months, each with its first and its last second.
ghost use Rattle.std.specs.Prelude.{◌≤◌};
ghost use Rattle.months.specs.Months.{last_month};

use crate::reading_back::say_date;
use months::{first_day, month_length};
use numerals::up_to;
use std::io;
use transcript::Decimal;

// A time, and its date; past the last time, the last.
fn say_time(rt: &impl Print, seconds: u64) -> io::Result<()> {
    let t = up_to(seconds, 4294967295);
    print!(rt; "{} = ", Decimal(t))?;
    say_date(rt, t as u32)
}

fn say_month(rt: &impl Print, month: u32) -> io::Result<()>
    requires { month ≤ last_month }
{
    let first = u64::from(first_day(month)) * 86400;
    let rest = u64::from(month_length(month)) * 86400;
    println!(rt)?;
    say_time(rt, first)?;
    print!(rt; ", ")?;
    say_time(rt, first + rest - 1)
}

pub(crate) fn say_months(rt: &impl Print) -> io::Result<()> {
    for month in 0..1634 {
        say_month(rt, month)?;
    }
    Ok(())
}
