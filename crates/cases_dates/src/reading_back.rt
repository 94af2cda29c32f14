// The date of a time, and the time of a date.
use dates::{read_date, write_date};
use std::io;
use transcript::Decimal;

pub(crate) fn say_read(rt: &impl Print, text: &[u8]) -> io::Result<()> {
    match read_date(text) {
        Some(t) => print!(rt; "{}", Decimal(t.into())),
        None => print!(rt; "no date"),
    }
}

fn say_back(rt: &impl Print, text: &[u8], t: u32) -> io::Result<()> {
    rt.write_all(text)?;
    if read_date(text) != Some(t) {
        print!(rt; " (")?;
        say_read(rt, text)?;
        print!(rt; ")")?;
    }
    Ok(())
}

pub(crate) fn say_date(rt: &impl Print, t: u32) -> io::Result<()> {
    let mut out = [0u8; 20];
    let n = write_date(&mut out, t);
    say_back(rt, &out[..n], t)
}
