// The calls on record lines, with what their words say.
ghost use Rattle.std.specs.Prelude.{◌≡◌};
ghost use Rattle.std.specs.Option.{unwrap_or};
ghost use Rattle.asking.specs.Asks.{order_byte, lining, lined};

use crate::{Asked, Way};
use numerals::{is_bytes, number_of, up_to};

// An order is a byte. For greater numbers 255 stands, which is no order.
fn order_byte(n: u64) -> u8
    ensures { result ≡ order_byte n }
{
    up_to(n, 255) as u8
}

fn line_numbers(
    way: Way,
    order: Option<u64>,
    at: Option<u64>,
    long: Option<u64>,
    hex: bool,
) -> Option<Asked>
    ensures { unwrap_or result Asked.NoCall ≡ lining way order at long hex }
{
    let order = order_byte(order?);
    let at = at? as usize;
    let long = long?;
    if 4096 < long || !hex {
        return None;
    }
    Some(Asked::Line(way, order, at, long as usize))
}

pub(crate) fn line_asked(way: Way, order: &[u8], at: &[u8], long: &[u8], hex: &[u8]) -> Asked
    ensures { result ≡ lined way order.now at.now long.now hex.now }
{
    line_numbers(
        way,
        number_of(order),
        number_of(at),
        number_of(long),
        is_bytes(hex),
    )
    .unwrap_or(Asked::NoCall)
}
