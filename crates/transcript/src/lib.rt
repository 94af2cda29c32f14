// Numbers, answers and rows as programs print them, in decimals written as count lines and dates write theirs (crate
// digits). The text of each is its `output`. That it reaches standard output no contract can say; a program's output is
// held to the file stdout beside it.
#![tactic(auto)]

ghost use Rattle.std.specs.Prelude.{◌≡◌, Some};
ghost use Rattle.digits.specs.Digits.{digits};
ghost use Rattle.transcript.specs.Texts.{answer_text, row_text};

use answers::{Answer, Saying, said};
use digits::put_digits;
use std::{fmt, io, str};

// A number.
#[derive(Clone, Copy)]
pub struct Decimal(pub u64);

impl fmt::Display for Decimal {
    ghost output = { λ n. Some (digits n.0) };

    // A number of eight bytes has twenty digits at most.
    #[tactic(auto, using(digits::proofs::Laws::digits_long))]
    fn fmt<W: fmt::Write>(&self, f: &mut fmt::Formatter<W>) -> fmt::Result {
        let Decimal(n) = *self;
        let mut text = [b' '; 20];
        let k = put_digits(&mut text, n);
        f.pad(str::from_utf8(&text[..k]).map_err(|_| fmt::Error)?)
    }
}

// An answer: its number, and the values that it carries, each behind a space.
#[derive(Clone, Copy)]
pub struct AnswerText(pub Answer);

impl fmt::Display for AnswerText {
    ghost output = { λ a. Some (answer_text a.0) };

    fn fmt<W: fmt::Write>(&self, f: &mut fmt::Formatter<W>) -> fmt::Result {
        let Saying(number, values) = said(self.0);
        let number = Decimal(u64::from(number));
        match values {
            None => write!(f, "{number}"),
            Some((head, site)) => {
                let (head, site) = (Decimal(u64::from(head)), Decimal(u64::from(site)));
                write!(f, "{number} {head} {site}")
            }
        }
    }
}

// A row of a report: its head, its site and its bin, and its count.
#[derive(Clone, Copy)]
pub struct RowText(pub u8, pub u8, pub u16, pub u32);

impl fmt::Display for RowText {
    ghost output = { λ r. Some (row_text r.0 r.1 r.2 r.3) };

    fn fmt<W: fmt::Write>(&self, f: &mut fmt::Formatter<W>) -> fmt::Result {
        let RowText(head, site, bin, count) = *self;
        let (head, site) = (Decimal(u64::from(head)), Decimal(u64::from(site)));
        let (bin, count) = (Decimal(u64::from(bin)), Decimal(u64::from(count)));
        write!(f, "{head}/{site}/{bin}={count}")
    }
}

// A number alone, written at once: cases_digits says a hundred thousand.
#[tactic(auto, using(digits::proofs::Laws::digits_long))]
pub fn say_number(rt: &impl Print, n: u64) -> io::Result<()> {
    let mut text = [b' '; 20];
    let k = put_digits(&mut text, n);
    rt.write_all(&text[..k])
}
