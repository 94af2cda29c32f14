// What the records of parts say: document 01, "Record frame and kinds", PIR and PRR.
#![tactic(auto)]

ghost use Rattle.std.specs.Prelude.{◌≡◌, ◌≤◌, length, if◌then◌else◌};
ghost use Rattle.fields.specs.Tables.{fits_body, prr};
ghost use Rattle.part_bodies.specs.Parts.{pir_of, prr_of, prr_values_fit, pir_body_fits, prr_body_fits};

use fields::{PRR, ends_among};
use numbers::Order;
use values::{ALL_SITES, MOST_BIN, soft_bin_fits, u2_at};

#[derive(Clone, Copy)]
pub struct Pir {
    pub head: u8,
    pub site: u8,
}

#[derive(Clone, Copy)]
pub struct Prr {
    pub head: u8,
    pub site: u8,
    pub flags: u8,
    pub bin: u16,
}

// What a PIR's body says that has its fields.
pub fn pir_of(body: &[u8]) -> Pir
    requires { 2 ≤ length body.now }
    ensures { result ≡ pir_of body.now }
{
    Pir {
        head: body[0],
        site: body[1],
    }
}

// .. where it fits, its head too. Its fields are 2 bytes, and none is optional.
#[tactic(auto, using(crate::proofs::Laws::pir_fits))]
pub fn read_pir(order: Order, body: &[u8]) -> Option<Pir>
    ensures { result ≡ (if pir_body_fits order body.now then Some (pir_of body.now) else None) }
{
    if body.len() != 2 || body[0] == ALL_SITES {
        return None;
    }
    Some(pir_of(body))
}

// The required fields are 7 bytes, and with the four optional ones behind them 17: where these are there, only those
// whose sizes their bytes tell are walked over.
fn prr_fields_fit(order: Order, body: &[u8]) -> bool
    ensures { result ≡ fits_body order prr body.now }
{
    if body.len() < 7 {
        return false;
    }
    if body.len() < 17 {
        ends_among(order, &PRR[5..], &body[7..])
    } else {
        ends_among(order, &PRR[9..], &body[17..])
    }
}

fn prr_values_fit(order: Order, body: &[u8]) -> bool
    requires { 7 ≤ length body.now }
    ensures { result ≡ prr_values_fit order body.now }
{
    body[0] != ALL_SITES
        && body[2] % 4 != 3
        && u2_at(order, body, 5) <= MOST_BIN
        && soft_bin_fits(order, body, 7)
}

// What a PRR's body says that has its required fields.
pub fn prr_of(order: Order, body: &[u8]) -> Prr
    requires { 7 ≤ length body.now }
    ensures { result ≡ prr_of order body.now }
{
    Prr {
        head: body[0],
        site: body[1],
        flags: body[2],
        bin: u2_at(order, body, 5),
    }
}

// .. where it fits, its values too.
pub fn read_prr(order: Order, body: &[u8]) -> Option<Prr>
    ensures { result ≡ (if prr_body_fits order body.now then Some (prr_of order body.now) else None) }
{
    if !(prr_fields_fit(order, body) && prr_values_fit(order, body)) {
        return None;
    }
    Some(prr_of(order, body))
}
