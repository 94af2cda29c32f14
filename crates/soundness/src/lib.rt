// Whether a house is sound, and what it owes: document 01, "A house is sound". Three passes over the rows, one over the
// slots; by value, and over lent rows, so that a call which goes on with the house copies no row to test it.
#![tactic(auto)]

mod rooms;

ghost use Rattle.std.specs.Prelude.{◌≡◌, true, ◌&&◌, ◌≤◌, ◌<◌, length, take};
ghost use Rattle.std.specs.Bool.{then_some};
ghost use Rattle.rising.specs.Rising.{rising};
ghost use Rattle.rows.specs.Rows.{rows_fit};
ghost use Rattle.house.specs.House.{taken_of, slot_sound, slots_sound, promised_from, promised, sound, soundness};
ghost use Rattle.house.specs.House.{house_of, Lent};
ghost use Rattle.prelude.specs.Checks.{checked};
ghost use Rattle.house.specs.Calls.{slot_checks};

use answers::Answer;
use house::{House, Slot};
pub use rooms::{room_of, unfilled_of};

// An open slot's floor, its held bytes, its session and counts; a closed slot holds nothing.
#[tactic(auto, unfolding(house::specs::House::slot_sound))]
fn slot_sound<'a>(
    i: usize,
    s: Slot,
    keys: &'a [u64; House::ROWS],
    counts: &'a [u64; House::ROWS],
    used: usize,
) -> bool
    requires { (i < 16) × Lent keys.now counts.now used }
    ensures { result ≡ slot_sound i s (take used keys.now) (take used counts.now) }
{
    let session = s.session;
    let st = session.standing;
    if !s.taken {
        return s.floor == 0 && s.held == 0 && session::nothing_yet(st);
    }
    s.floor as usize <= House::ROWS
        && s.held <= House::CARRY
        && session::is_sound(session)
        && row_tests::sum_is(keys, counts, used, i, st.results)
}

// What the slots tell where each is sound: the rows promised, and which are open.
#[derive(Clone, Copy)]
struct SlotsTold {
    promised: u64,
    taken: [bool; House::SLOTS],
}

// One pass over the slots, and one copy of them. And that there are sixteen, which the array's type alone says.
fn slots_told<'a>(
    slots: [Slot; House::SLOTS],
    keys: &'a [u64; House::ROWS],
    counts: &'a [u64; House::ROWS],
    used: usize,
) -> Option<SlotsTold>
    requires { Lent keys.now counts.now used }
    ensures { (result
        ≡ then_some (slots_sound 0 slots (take used keys.now) (take used counts.now))
        (record { promised = promised_from 0 slots (take used keys.now); taken = taken_of slots }))
        × (length slots ≡ 16) }
{
    let mut sound = true;
    let mut promised: u64 = 0;
    let mut taken = [false; House::SLOTS];
    for i in 0..House::SLOTS {
        let s = slots[i];
        sound &= slot_sound(i, s, keys, counts, used);
        promised += u64::from(unfilled_of(i, s, keys, used));
        taken[i] = s.taken;
    }
    sound.then_some(SlotsTold { promised, taken })
}

// The rows in use fit and rise.
fn rows_rise<'a>(keys: &'a [u64; House::ROWS], counts: &'a [u64; House::ROWS], used: usize) -> bool
    requires { (length keys.now ≡ 1024) × (length counts.now ≡ 1024) × (used ≤ 1024) }
    ensures { result
        ≡ (rows_fit (take used keys.now) (take used counts.now)
        && rising (take used keys.now)) }
{
    row_tests::rows_fit(keys, counts, used) && searching::rises_below(keys, used)
}

// What a test of a house tells whose rows are lent, the rows promised where it is sound: a call that goes on with the
// house copies no row to test it, and what is promised is summed once. And that there are sixteen slots.
pub fn soundness_lent<'a>(
    slots: [Slot; House::SLOTS],
    keys: &'a [u64; House::ROWS],
    counts: &'a [u64; House::ROWS],
    used: usize,
) -> Option<u32>
    requires { (length keys.now ≡ 1024) × (length counts.now ≡ 1024) }
    ensures { (result ≡ soundness (house_of keys.now counts.now used slots))
        × (length slots ≡ 16) }
{
    if House::ROWS < used || !rows_rise(keys, counts, used) {
        return None;
    }
    let told = slots_told(slots, keys, counts, used)?;
    if !row_tests::rows_open(&told.taken, keys, used) {
        return None;
    }
    let free = (House::ROWS - used) as u64;
    if free < told.promised {
        return None;
    }
    Some(told.promised as u32)
}

pub fn soundness_of(house: House) -> Option<u32>
    ensures { result ≡ soundness house }
{
    soundness_lent(house.slots, &house.keys, &house.counts, house.used)
}

pub fn is_sound(house: House) -> bool
    ensures { result ≡ sound house }
{
    soundness_of(house).is_some()
}

// The checks of a call that names a slot, 15, 1 and 2: the house is sound, there is such a slot, and it is open. Tells
// the slot and the rows promised. And that there are sixteen slots.
pub fn open_at(house: &House, slot: u32) -> Result<(usize, u32), Answer>
    ensures { (result ≡ checked Err (slot_checks house.now slot) (Ok (slot, promised house.now)))
        × (length house.now.slots ≡ 16) }
{
    let Some(owed) = soundness_lent(house.slots, &house.keys, &house.counts, house.used) else {
        return Err(Answer::NotSound);
    };
    let i = slot as usize;
    if House::SLOTS <= i {
        return Err(Answer::NoSuchSlot);
    }
    let s = house.slots[i];
    if !s.taken {
        return Err(Answer::SlotClosed);
    }
    Ok((i, owed))
}
