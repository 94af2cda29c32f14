// What a body of any kind says: document 01, "Record frame and kinds", the bodies read; #103, WIR and WRR. FAR,
// MIR, MRR, WIR and WRR are read here, the others where their structs stand.
#![tactic(auto)]

ghost use Rattle.std.specs.Prelude.{◌≡◌, ◌≤◌, length, take, if◌then◌else◌};
ghost use Rattle.fields.specs.Fields.{fits_table};
ghost use Rattle.fields.specs.Tables.{far, fits_body, least};
ghost use Rattle.bodies.specs.Bodies.{far_of, wafer_of, read_body};

use count_bodies::{Bin, Pcr, read_bin, read_pcr};
use fields::{FAR, FieldType, MIR, MRR, WIR, WRR, fits_table};
use kinds::Kind;
use numbers::Order;
use part_bodies::{Pir, Prr, read_pir, read_prr};

#[derive(Clone, Copy)]
pub struct Far {
    pub cpu: u8,
    pub version: u8,
}

// The head and the site group of a wafer's record: a stream tells its open wafers apart by these two. No other field of a
// WIR or WRR is judged, beyond that it is whole; the lines read them again, field by field, where they are written.
#[derive(Clone, Copy)]
pub struct Wafer {
    pub head: u8,
    pub group: u8,
}

// What is read of a body. A kind that is none of the first nine cases has its body unread.
#[derive(Clone, Copy)]
pub enum Record {
    Far(Far),
    Mir,
    Mrr,
    Pcr(Pcr),
    Bin(Bin),
    Pir(Pir),
    Prr(Prr),
    Wir(Wafer),
    Wrr(Wafer),
    Unread,
}

fn read_far(order: Order, body: &[u8]) -> Option<Far>
    ensures { result ≡ (if fits_body order far body.now then Some (far_of body.now) else None) }
{
    if !fits_table(order, body, &FAR, 2) {
        return None;
    }
    Some(Far {
        cpu: body[0],
        version: body[1],
    })
}

// What a WIR or a WRR says, by its table: the head and the site group stand first in both.
#[tactic(auto, using(fields::proofs::Laws::table_there))]
fn read_wafer(order: Order, body: &[u8], fields: &[FieldType], required: usize) -> Option<Wafer>
    requires required { required ≤ length fields.now }
    requires first { 2 ≤ least (take required fields.now) }
    ensures { result ≡ (if fits_table order fields.now required body.now then Some (wafer_of body.now) else None) }
{
    if !fits_table(order, body, fields, required) {
        return None;
    }
    Some(Wafer {
        head: body[0],
        group: body[1],
    })
}

// What a body of that kind says, or that it does not fit.
#[tactic(auto, unfolding(crate::specs::Bodies::read_body))]
pub fn read_body(order: Order, kind: Kind, body: &[u8]) -> Option<Record>
    ensures { result ≡ read_body order kind body.now }
{
    match kind {
        Kind::Far => read_far(order, body).map(Record::Far),
        Kind::Mir => fits_table(order, body, &MIR, 13).then_some(Record::Mir),
        Kind::Mrr => fits_table(order, body, &MRR, 1).then_some(Record::Mrr),
        Kind::Pcr => read_pcr(order, body).map(Record::Pcr),
        Kind::Hbr => read_bin(false, order, body).map(Record::Bin),
        Kind::Sbr => read_bin(true, order, body).map(Record::Bin),
        Kind::Pir => read_pir(order, body).map(Record::Pir),
        Kind::Prr => read_prr(order, body).map(Record::Prr),
        Kind::Wir => read_wafer(order, body, &WIR, 3).map(Record::Wir),
        Kind::Wrr => read_wafer(order, body, &WRR, 4).map(Record::Wrr),
        Kind::Atr | Kind::Rdr | Kind::Sdr | Kind::Remaining(_) | Kind::Custom | Kind::Unknown =>
            Some(Record::Unread),
    }
}
