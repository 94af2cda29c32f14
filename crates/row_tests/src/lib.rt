// What the test of a house's soundness asks of its rows: document 01, "A house is sound". All is over lent slices:
// `used` cells of each are in use, and nothing is known of what stands in them that a contract does not ask for.
#![tactic(auto)]

ghost use Rattle.std.specs.Prelude.{◌≡◌, true, ◌≤◌, ◌<◌, eqb, length, take};
ghost use Rattle.rising.specs.Rising.{rising, all_below};
ghost use Rattle.rows.specs.Rows.{sum_by, bits_fit, rows_open, rows_fit, Kept};

use rows::{SLOT_SPAN, slot_rank};

const HEAD_SPAN: u64 = 16777216;

const PAST_SLOTS: u64 = 68719476736;

const PAST_TOTALS: u64 = 4294967296;

// Whether the slot's counts sum to `total`. A house that is not sound may hold any counts, and their sum need not fit:
// what they have below 2^32 is added up, and anything that one of them has above it is more than any total. No early
// return, so that several are added at a time.
pub fn sum_is(keys: &[u64], counts: &[u64], used: usize, slot: usize, total: u32) -> bool
    requires { (slot < 16) × (used ≤ 65536) × Kept keys.now counts.now used }
    ensures { result ≡ eqb (sum_by slot (take used keys.now) (take used counts.now)) total }
{
    let from = slot_rank(keys, used, slot);
    let end = slot_rank(keys, used, slot + 1);
    let mut sum: u64 = 0;
    let mut above: u64 = 0;
    for i in from..end {
        let count = counts[i];
        sum += count % PAST_TOTALS;
        above |= count / PAST_TOTALS;
    }
    above == 0 && sum == u64::from(total)
}

// Whether no key has a bit that none may have: `joined` has the bits of all of them, and `carried` those of all of them
// with 1 more in the head, which only a head of 255 carries out of.
fn bits_fit(joined: u64, carried: u64) -> bool
    ensures { result ≡ bits_fit joined carried }
{
    joined / PAST_SLOTS == 0 && carried / SLOT_SPAN == 0 && joined / 32768 % 2 == 0
}

// Whether every row has a slot, a head and a bin that there are, and a count. No early return, and the keys are joined
// bit by bit, not compared: so even the plainest processor takes several rows at a time.
pub fn rows_fit(keys: &[u64], counts: &[u64], used: usize) -> bool
    requires { (used ≤ length keys.now) × (length counts.now ≡ length keys.now) }
    ensures { result ≡ rows_fit (take used keys.now) (take used counts.now) }
{
    let mut joined: u64 = 0;
    let mut carried: u64 = 0;
    let mut counted = true;
    for i in 0..used {
        let key = keys[i];
        joined |= key;
        carried |= key % SLOT_SPAN + HEAD_SPAN;
        counted &= counts[i] != 0;
    }
    counted && bits_fit(joined, carried)
}

// Whether every row's slot is open. Rows stand by slot, so the first of a slot's rows tells for all of them.
pub fn rows_open(taken: &[bool], keys: &[u64], used: usize) -> bool
    requires { (length taken.now ≡ 16) × (used ≤ length keys.now) × (rising (take used keys.now) ≡ true)
        × (all_below 68719476736 (take used keys.now) ≡ true) }
    ensures { result ≡ rows_open taken.now (take used keys.now) }
{
    let mut i: usize = 0;
    while i < used {
        let slot = (keys[i] / SLOT_SPAN) as usize;
        if !taken[slot] {
            return false;
        }
        i = slot_rank(keys, used, slot + 1);
    }
    true
}
