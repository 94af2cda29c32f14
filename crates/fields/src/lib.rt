// How a body is made of fields: document 01, "Record frame and kinds", bodies read. One table for each body, in the order
// of its bytes, and one walk for all of them.
#![tactic(auto)]

ghost use Rattle.std.specs.Prelude.{◌≡◌, ◌≤◌, length};
ghost use Rattle.fields.specs.Fields.{size, ends_among, fits_table};

use numbers::Order;

// The type of a field: an integer of a width, unsigned or signed; a character; eight bits; and the two whose count
// byte tells how many bytes stand behind it.
#[derive(Clone, Copy)]
pub enum FieldType {
    U(u8),
    I(u8),
    C1,
    B1,
    Cn,
    Bn,
}

const U1: FieldType = FieldType::U(1);

const U2: FieldType = FieldType::U(2);

const I2: FieldType = FieldType::I(2);

const U4: FieldType = FieldType::U(4);

const C1: FieldType = FieldType::C1;

const B1: FieldType = FieldType::B1;

const CN: FieldType = FieldType::Cn;

const BN: FieldType = FieldType::Bn;

// CPU_TYPE, STDF_VER
pub static FAR: [FieldType; 2] = [U1, U1];

// times, station, codes, burn-in, LOT_ID to JOB_NAM, bar, JOB_REV to SUPR_NAM
pub static MIR: [FieldType; 38] = [
    U4, U4, U1, C1, C1, C1, U2, C1, CN, CN, CN, CN, CN, CN, CN, CN, CN, CN, CN, CN, CN, CN, CN, CN,
    CN, CN, CN, CN, CN, CN, CN, CN, CN, CN, CN, CN, CN, CN,
];

// time, bar, disposition, two descriptions
pub static MRR: [FieldType; 4] = [U4, C1, CN, CN];

// head, site, parts, bar, retest, abort, good, functional
pub static PCR: [FieldType; 7] = [U1, U1, U4, U4, U4, U4, U4];

// head, site, bin, count, bar, P/F, name: HBR and SBR alike
pub static BIN: [FieldType; 6] = [U1, U1, U2, U4, C1, CN];

// head, site
pub static PIR: [FieldType; 2] = [U1, U1];

// head, site, PART_FLG, tests, hard bin, bar, soft bin, X, Y, time, id, text, fix
pub static PRR: [FieldType; 12] = [U1, U1, B1, U2, U2, U2, I2, I2, U4, CN, CN, BN];

// head, site group, start time, bar, wafer id
pub static WIR: [FieldType; 4] = [U1, U1, U4, CN];

// head, site group, finish time, parts, bar, retest, abort, good, functional, four ids, two descriptions
pub static WRR: [FieldType; 14] = [U1, U1, U4, U4, U4, U4, U4, U4, CN, CN, CN, CN, CN, CN];

// How many bytes a field of that type takes that begins with these. The types of today take the same in either order.
fn size(order: Order, field: FieldType, bytes: &[u8]) -> usize
    ensures { result ≡ size order field bytes.now }
{
    match field {
        FieldType::U(width) | FieldType::I(width) => usize::from(width),
        FieldType::C1 | FieldType::B1 => 1,
        FieldType::Cn | FieldType::Bn => bytes.first().map_or(1, |&n| 1 + usize::from(n)),
    }
}

// Whether bytes end well where their fields are optional: after any of them or before the first, not inside one and not
// past the last.
#[tactic(auto, using(crate::proofs::Laws::ends_none))]
pub fn ends_among(order: Order, fields: &[FieldType], bytes: &[u8]) -> bool
    ensures { result ≡ ends_among order fields.now bytes.now }
{
    let mut left = bytes;
    for field in fields {
        if left.is_empty() {
            return true;
        }
        let Some(behind) = left.get(size(order, *field, left)..) else {
            return false; // it stops inside a field
        };
        left = behind;
    }
    left.is_empty()
}

// Whether a body is made of the fields, of which the first `required` must be there.
pub fn fits_table(order: Order, body: &[u8], fields: &[FieldType], required: usize) -> bool
    requires { required ≤ length fields.now }
    ensures { result ≡ fits_table order fields.now required body.now }
{
    let mut left = body;
    for field in &fields[..required] {
        let Some(behind) = left.get(size(order, *field, left)..) else {
            return false; // a required field is cut off
        };
        left = behind;
    }
    ends_among(order, &fields[required..], left)
}
