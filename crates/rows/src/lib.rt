// The rows of a house: document 01, "The house, its slots and its rows". The keys in use rise strictly and begin with
// their slot, so a slot's rows are the stretch between two ranks. All is over lent slices: `used` cells of each are
// in use.
#![tactic(auto)]

ghost use Rattle.std.specs.Prelude.{◌≡◌, true, ◌≤◌, ◌<◌, length, take};
ghost use Rattle.rising.specs.Rising.{rising};
ghost use Rattle.rows.specs.Rows.{slot_rank, held_by, rows, counted, slot_dropped, Kept, Countable};

use rising::{holds, insert, rank_of, remove};

// A key is its slot times this, and less than this for its head and bin.
pub const SLOT_SPAN: u64 = 4294967296;

// How many rows stand before those of the slot; of slot 16, how many there are of all slots.
pub fn slot_rank(keys: &[u64], used: usize, slot: usize) -> usize
    requires { (slot ≤ 16) × (used ≤ length keys.now) × (rising (take used keys.now) ≡ true) }
    ensures { result ≡ slot_rank slot (take used keys.now) }
{
    rank_of(keys, used, slot as u64 * SLOT_SPAN)
}

// How many rows the slot holds.
pub fn held_by(keys: &[u64], used: usize, slot: usize) -> usize
    requires { (slot < 16) × (used ≤ length keys.now) × (rising (take used keys.now) ≡ true) }
    ensures { result ≡ held_by slot (take used keys.now) }
{
    let before = slot_rank(keys, used, slot);
    slot_rank(keys, used, slot + 1) - before
}

// Counts one part more under `key`, whose rank is `at`, and answers how many rows are in use then. The caller has
// searched: whether the key needs a row is judged before anything is counted.
pub fn count_row(keys: &mut [u64], counts: &mut [u64], used: usize, at: usize, key: u64) -> usize
    requires { Countable keys.old counts.old used at key }
    ensures { rows keys.new counts.new result
        ≡ counted keys.old counts.old used key }
{
    if holds(keys, used, at, key) {
        counts[at] += 1;
        return used;
    }
    insert(keys, used, at, key);
    insert(counts, used, at, 1);
    used + 1
}

// Returns every row of the slot, and answers how many rows are in use then.
pub fn drop_slot(keys: &mut [u64], counts: &mut [u64], used: usize, slot: usize) -> usize
    requires { (slot < 16) × Kept keys.old counts.old used }
    ensures { rows keys.new counts.new result
        ≡ slot_dropped keys.old counts.old used slot }
{
    let from = slot_rank(keys, used, slot);
    let n = held_by(keys, used, slot);
    remove(keys, used, from, n);
    remove(counts, used, from, n);
    used - n
}
