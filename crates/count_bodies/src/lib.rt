// What the records of counts say: document 01, "Record frame and kinds", PCR, HBR and SBR.
#![tactic(auto)]

ghost use Rattle.std.specs.Prelude.{◌≡◌, ◌≤◌, length, if◌then◌else◌};
ghost use Rattle.fields.specs.Tables.{fits_body, pcr};
ghost use Rattle.count_bodies.specs.Counts.{pcr_of, bin_count_of, bin_values_fit, bin_body_fits};

use fields::{BIN, PCR, fits_table};
use numbers::Order;
use values::{MOST_BIN, Name, count_at, name_at, pass_fail_at, pass_fail_fits, u2_at, u4_at};

#[derive(Clone, Copy)]
pub struct Pcr {
    pub head: u8,
    pub site: u8,
    pub parts: u32,
    pub retest: Option<u32>,
    pub abort: Option<u32>,
    pub good: Option<u32>,
    pub functional: Option<u32>,
}

// HBR, or SBR where `soft`. The value of P/F, `pf`, is the byte P or F.
#[derive(Clone, Copy)]
pub struct Bin {
    pub soft: bool,
    pub head: u8,
    pub site: u8,
    pub bin: u16,
    pub count: u32,
    pub pf: Option<u32>,
    pub name: Option<Name>,
}

// What a PCR's body says that has its required fields.
pub fn pcr_of(order: Order, body: &[u8]) -> Pcr
    requires { 6 ≤ length body.now }
    ensures { result ≡ pcr_of order body.now }
{
    Pcr {
        head: body[0],
        site: body[1],
        parts: u4_at(order, body, 2),
        retest: count_at(order, body, 6),
        abort: count_at(order, body, 10),
        good: count_at(order, body, 14),
        functional: count_at(order, body, 18),
    }
}

// .. where it fits.
pub fn read_pcr(order: Order, body: &[u8]) -> Option<Pcr>
    ensures { result ≡ (if fits_body order pcr body.now then Some (pcr_of order body.now) else None) }
{
    if !fits_table(order, body, &PCR, 3) {
        return None;
    }
    Some(pcr_of(order, body))
}

// The values that an HBR's or SBR's required fields and its P/F have.
fn bin_values_fit(order: Order, body: &[u8]) -> bool
    requires { 8 ≤ length body.now }
    ensures { result ≡ bin_values_fit order body.now }
{
    u2_at(order, body, 2) <= MOST_BIN && pass_fail_fits(body, 8)
}

// What an HBR's or SBR's body says that has its required fields.
pub fn bin_count_of(soft: bool, order: Order, body: &[u8]) -> Bin
    requires { 8 ≤ length body.now }
    ensures { result ≡ bin_count_of soft order body.now }
{
    Bin {
        soft,
        head: body[0],
        site: body[1],
        bin: u2_at(order, body, 2),
        count: u4_at(order, body, 4),
        pf: pass_fail_at(body, 8),
        name: name_at(body, 9),
    }
}

// .. where it fits, its values too.
pub fn read_bin(soft: bool, order: Order, body: &[u8]) -> Option<Bin>
    ensures { result ≡ (if bin_body_fits order body.now then Some (bin_count_of soft order body.now) else None) }
{
    if !(fits_table(order, body, &BIN, 4) && bin_values_fit(order, body)) {
        return None;
    }
    Some(bin_count_of(soft, order, body))
}
