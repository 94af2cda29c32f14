// Whether a body fits, and which lengths of it do: it is cut at every length, so inside each field and at each field's
// end.
ghost use Rattle.std.specs.Prelude.{◌≡◌, IfOk, IfSome};

use bodies::read_body;
use kinds::Kind;
use numbers::Order;
use std::io;
use transcript::Decimal;

// Some past the longest body, 7,695 bytes.
const PAST: usize = 8192;

fn fits(order: Order, kind: Kind, body: &[u8]) -> bool {
    read_body(order, kind, body).is_some()
}

pub(crate) fn say_fit(rt: &impl Print, order: Order, kind: Kind, body: &[u8]) -> io::Result<()> {
    if fits(order, kind, body) {
        println!(rt; " 0")
    } else {
        println!(rt; " 7")
    }
}

// Nothing is longer than the bytes that there are.
fn fits_at(order: Order, kind: Kind, bytes: &[u8], n: usize) -> bool {
    match bytes.get(..n) {
        Some(body) => fits(order, kind, body),
        None => false,
    }
}

// A run of numbers, first and last: with n, which is its last then, where n is within it, and otherwise said.
pub(crate) fn run_at(
    rt: &impl Print,
    within: bool,
    n: usize,
    run: Option<(usize, usize)>,
    what: &str,
) -> io::Result<Option<(usize, usize)>>
    ensures { IfOk result (λ r. IfSome r (λ now. now.1 ≡ n)) }
{
    if within {
        let first = run.map_or(n, |(first, _)| first);
        return Ok(Some((first, n)));
    }
    match run {
        Some((first, last)) if first < last => {
            let (first, last) = (Decimal(first as u64), Decimal(last as u64));
            print!(rt; " {first} to {last}{what}")?;
        }
        Some((first, _)) => print!(rt; " {}{what}", Decimal(first as u64))?,
        None => {}
    }
    Ok(None)
}

// Every length that fits, up to some past the longest body.
pub(crate) fn say_lengths(
    rt: &impl Print,
    order: Order,
    kind: Kind,
    bytes: &[u8],
) -> io::Result<()> {
    let mut run = None;
    for n in 0..PAST {
        run = run_at(rt, fits_at(order, kind, bytes, n), n, run, "")?;
    }
    println!(rt)
}
