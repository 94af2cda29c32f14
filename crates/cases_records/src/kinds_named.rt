// Kinds by type and subtype, and where each takes a stream from each place.
use crate::lengths::run_at;
use fixtures::place_at;
use kinds::{Kind, kind_of};
use order::next_place;
use std::io;
use transcript::Decimal;

// The subtypes that have a name, and runs of custom ones. There is no subtype 256, where the last run ends.
pub(crate) fn say_type(rt: &impl Print, typ: u8) -> io::Result<()> {
    let mut run = None;
    for s in 0..=256 {
        let kind = match u8::try_from(s) {
            Ok(sub) => kind_of(typ, sub),
            Err(_) => Kind::Unknown,
        };
        run = run_at(rt, matches!(kind, Kind::Custom), s, run, " custom")?;
        if !matches!(kind, Kind::Custom | Kind::Unknown) {
            print!(rt; " {} {kind}", Decimal(s as u64))?;
        }
    }
    println!(rt)
}

pub(crate) fn say_steps(rt: &impl Print, kind: Kind) -> io::Result<()> {
    print!(rt; "{kind:<7}")?;
    for i in 0..6 {
        match next_place(place_at(i), kind) {
            Some(place) => print!(rt; "{place:>8}")?,
            None => print!(rt; "{:>8}", Decimal(8))?,
        }
    }
    println!(rt)
}
