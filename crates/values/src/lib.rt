// What stands in a field: document 01, "Record frame and kinds", value rules and optional fields. Each function reads
// at a stated offset of a body.
#![tactic(auto)]

ghost use Rattle.std.specs.Prelude.{◌≡◌, ◌+◌, ◌≤◌, length};
ghost use Rattle.numbers.specs.Numbers.{number, front};
ghost use Rattle.values.specs.Values.{count_at, pass_fail_at, name_at, soft_bin_fits, pass_fail_fits};

use numbers::Order;

// Bins are 0 to 32,767.
pub const MOST_BIN: u16 = 32767;

// An absent soft bin.
const NO_BIN: u16 = u16::MAX;

// Head 255 means all sites.
pub const ALL_SITES: u8 = 255;

// A count of all ones is missing.
const NO_COUNT: u32 = u32::MAX;

// A name in a body: where its first byte stands, and how many it has.
#[derive(Clone, Copy)]
pub struct Name {
    pub at: usize,
    pub len: usize,
}

pub fn u2_at(order: Order, body: &[u8], at: usize) -> u16
    requires { at + 2 ≤ length body.now }
    ensures { result ≡ number order (front 2 at body.now) }
{
    numbers::u2(order, &body[at..])
}

pub fn u4_at(order: Order, body: &[u8], at: usize) -> u32
    requires { at + 4 ≤ length body.now }
    ensures { result ≡ number order (front 4 at body.now) }
{
    numbers::u4(order, &body[at..])
}

// The optional count at an offset: missing where it is cut off or all ones.
#[tactic(auto, unfolding(crate::specs::Values::count_at))]
pub fn count_at(order: Order, body: &[u8], at: usize) -> Option<u32>
    ensures { result ≡ count_at order body.now at }
{
    let part = body.get(at..)?;
    if part.len() < 4 {
        return None;
    }
    let n = numbers::u4(order, part);
    (n != NO_COUNT).then_some(n)
}

// The optional P/F at an offset: missing where it is cut off or a space.
#[tactic(auto, unfolding(crate::specs::Values::pass_fail_at))]
pub fn pass_fail_at(body: &[u8], at: usize) -> Option<u32>
    ensures { result ≡ pass_fail_at body.now at }
{
    let c = *body.get(at)?;
    (c != b' ').then_some(u32::from(c))
}

// The optional name whose count byte stands at an offset: missing where it is cut off or empty.
#[tactic(auto, unfolding(crate::specs::Values::name_at))]
pub fn name_at(body: &[u8], at: usize) -> Option<Name>
    ensures { result ≡ name_at body.now at }
{
    let n = *body.get(at)?;
    (n != 0).then_some(Name {
        at: at + 1,
        len: usize::from(n),
    })
}

// Value rule of the optional P/F at an offset.
#[tactic(auto, unfolding(crate::specs::Values::pass_fail_fits))]
pub fn pass_fail_fits(body: &[u8], at: usize) -> bool
    ensures { result ≡ pass_fail_fits body.now at }
{
    matches!(body.get(at), None | Some(b'P' | b'F' | b' '))
}

// Value rule of the optional soft bin at an offset.
#[tactic(auto, unfolding(crate::specs::Values::soft_bin_fits))]
pub fn soft_bin_fits(order: Order, body: &[u8], at: usize) -> bool
    ensures { result ≡ soft_bin_fits order body.now at }
{
    match body.get(at..) {
        Some(part) if 2 <= part.len() => {
            let n = numbers::u2(order, part);
            n <= MOST_BIN || n == NO_BIN
        }
        _ => true,
    }
}
