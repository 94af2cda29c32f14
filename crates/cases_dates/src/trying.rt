// A text cut short at every length, and altered at every place: which of what comes of it are dates.
ghost use Rattle.std.specs.Prelude.{◌<◌, length};

use dates::read_date;
use std::io;
use transcript::Decimal;

fn is_date(text: &[u8]) -> bool {
    read_date(text).is_some()
}

pub(crate) fn say_cuts(rt: &impl Print, text: &[u8]) -> io::Result<()> {
    for n in 1..=text.len() {
        if is_date(&text[..n]) {
            print!(rt; " {}", Decimal(n as u64))?;
        }
    }
    Ok(())
}

// How many of the 256 bytes make a text a date at this place. The text is left as it was.
fn dates_at(text: &mut [u8], i: usize) -> usize
    requires { i < length text.old }
{
    let own = text[i];
    let mut n = 0;
    for b in 0..256u32 {
        text[i] = b as u8;
        n += usize::from(is_date(text));
    }
    text[i] = own;
    n
}

pub(crate) fn say_altered(rt: &impl Print, text: &mut [u8]) -> io::Result<()> {
    for i in 0..text.len() {
        print!(rt; " {}", Decimal(dates_at(text, i) as u64))?;
    }
    Ok(())
}
