// The order of a stream: document 01, "Order of a stream". specs/Order.antt has it as a table, a row for each place; the
// code reads the same table by columns, one for each kind.
#![tactic(auto)]

mod display;

ghost use Rattle.std.specs.Prelude.{◌≡◌};
ghost use Rattle.order.specs.Order.{by_place, goes};

use kinds::Kind;

// Where a stream stands: before its FAR; in its header, behind the FAR and any ATRs; behind its MIR; behind an RDR or
// SDR; in its body; behind its MRR.
#[derive(Clone, Copy, PartialEq, Eq)]
pub enum Place {
    Start,
    Header,
    Lot,
    Setup,
    Body,
    Ended,
}

// One step for each place but the last, which no record leaves: a column of the table.
fn by_place(
    start: Option<Place>,
    header: Option<Place>,
    lot: Option<Place>,
    setup: Option<Place>,
    body: Option<Place>,
    place: Place,
) -> Option<Place>
    ensures { result ≡ by_place start header lot setup body place }
{
    match place {
        Place::Start => start,
        Place::Header => header,
        Place::Lot => lot,
        Place::Setup => setup,
        Place::Body => body,
        Place::Ended => None,
    }
}

// Where the next record, of that kind, takes a stream that stands at the place. The kind is asked first: a caller has
// just searched for it, so what is left to ask is one place.
pub fn next_place(place: Place, kind: Kind) -> Option<Place>
    ensures { result ≡ goes place kind }
{
    let out = None;
    let header = Some(Place::Header);
    let lot = Some(Place::Lot);
    let setup = Some(Place::Setup);
    let body = Some(Place::Body);
    let ended = Some(Place::Ended);
    match kind {
        Kind::Far => by_place(header, out, out, out, out, place),
        Kind::Atr => by_place(out, header, out, out, out, place),
        Kind::Mir => by_place(out, lot, out, out, out, place),
        Kind::Rdr => by_place(out, out, setup, out, out, place),
        Kind::Sdr => by_place(out, out, setup, setup, out, place),
        Kind::Mrr => by_place(out, out, ended, ended, ended, place),
        // Told apart from the rest: joined with it they took a record of either a twentieth more instructions (bench_lent).
        Kind::Pir => by_place(out, out, body, body, body, place),
        Kind::Prr => by_place(out, out, body, body, body, place),
        _ => by_place(out, out, body, body, body, place),
    }
}
