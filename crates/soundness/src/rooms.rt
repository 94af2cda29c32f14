// Rows held, free and promised: document 01, "The house, its slots and its rows".
ghost use Rattle.std.specs.Prelude.{◌≡◌, true, ◌<◌, length, take};
ghost use Rattle.house.specs.House.{unfilled, promised, sound, LentKeys};
ghost use Rattle.house.specs.Calls.{room_of};

use house::{House, Room, Slot};
use rows::held_by;

// The rows still promised to a slot: its floor less what it holds, where that is above nought.
#[tactic(auto, unfolding(house::specs::House::unfilled))]
pub fn unfilled_of(i: usize, s: Slot, keys: &[u64; House::ROWS], used: usize) -> u32
    requires { (i < 16) × LentKeys keys.now used }
    ensures { result ≡ unfilled i s (take used keys.now) }
{
    if !s.taken {
        return 0;
    }
    let held = held_by(keys, used, i);
    (s.floor as usize).saturating_sub(held) as u32
}

// What a slot of a sound house sees of it, where the test has told how many rows the house owes.
pub fn room_of(house: &House, owed: u32, slot: usize) -> Room
    requires { (sound house.now ≡ true) × (owed ≡ promised house.now) × (slot < 16) × (length house.now.slots ≡ 16) }
    ensures { result ≡ room_of house.now slot }
{
    let s = house.slots[slot];
    Room {
        slot,
        floor: s.floor,
        others: owed - unfilled_of(slot, s, &house.keys, house.used),
    }
}
