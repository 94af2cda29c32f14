// The calls on a house, with the numbers that their words say: one that is none makes no call.
ghost use Rattle.std.specs.Prelude.{◌≡◌};
ghost use Rattle.asking.specs.Asks.{in_four, played, closing, opening, reporting, delivering};
ghost use Rattle.asking.specs.Asks.{ending, feeding};

use asked_calls::Call;
use numerals::up_to;

// A slot or a floor, in four bytes.
fn in_four(n: u64) -> u32
    ensures { result ≡ in_four n }
{
    up_to(n, 4294967295) as u32
}

pub(crate) fn close(slot: Option<u64>) -> Option<Call>
    ensures { played result ≡ closing slot }
{
    Some(Call::Close(in_four(slot?)))
}

pub(crate) fn open(slot: Option<u64>, floor: Option<u64>) -> Option<Call>
    ensures { played result ≡ opening slot floor }
{
    Some(Call::Open(in_four(slot?), in_four(floor?)))
}

pub(crate) fn report(slot: Option<u64>, long: Option<u64>) -> Option<Call>
    ensures { played result ≡ reporting slot long }
{
    Some(Call::Report(in_four(slot?), long? as usize))
}

pub(crate) fn deliver(slot: Option<u64>, hex: bool) -> Option<Call>
    ensures { played result ≡ delivering slot hex }
{
    hex.then_some(Call::Deliver(in_four(slot?)))
}

pub(crate) fn end(slot: Option<u64>) -> Option<Call>
    ensures { played result ≡ ending slot }
{
    Some(Call::End(in_four(slot?)))
}

// No more is lent than the desk has for a slot: 65,540 bytes.
pub(crate) fn feed(slot: Option<u64>, long: Option<u64>, hex: bool) -> Option<Call>
    ensures { played result ≡ feeding slot long hex }
{
    hex.then_some(Call::Feed(in_four(slot?), up_to(long?, 65540) as usize))
}
