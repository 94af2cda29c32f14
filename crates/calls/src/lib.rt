// The calls that open and close a slot, and the operator's reading: document 01, "The house, its slots and its rows",
// Calls, each with its order of checks. A refusal gives the house back as it came: every call takes a house by value,
// tests its soundness and answers, whatever is handed in.
#![tactic(auto)]

ghost use Rattle.std.specs.Prelude.{◌≡◌};
ghost use Rattle.house.specs.Calls.{open_slot, close_slot, figures_of, answered};

use answers::Answer;
use house::{Answered, Figures, House, Slot};
use soundness::{open_at, soundness_of};

// What every call of a house gives back, a delivery too.
pub fn answer_with(answer: Answer, house: House) -> Answered
    ensures { result ≡ answered answer house }
{
    Answered { answer, house }
}

// Opens a slot with a floor.
pub fn open_slot(house: House, slot: u32, floor: u32) -> Answered
    ensures { result ≡ open_slot house slot floor }
{
    let mut h = house;
    let Some(promised) = soundness_of(h) else {
        return answer_with(Answer::NotSound, h);
    };
    let i = slot as usize;
    if House::SLOTS <= i {
        return answer_with(Answer::NoSuchSlot, h);
    }
    if House::ROWS < floor as usize {
        return answer_with(Answer::FloorTooHigh, h);
    }
    let s = h.slots[i];
    let free = (House::ROWS - h.used) as u32;
    let spare = free - promised;
    if s.taken {
        return answer_with(Answer::SlotTaken, h);
    }
    if spare < floor {
        return answer_with(Answer::NoRoom, h);
    }
    h.slots[i] = Slot::opened(floor);
    answer_with(Answer::Done, h)
}

// Free and promised rows: the operator's reading.
pub fn figures(house: House) -> Figures
    ensures { result ≡ figures_of house }
{
    let Some(promised) = soundness_of(house) else {
        return Figures {
            answer: Answer::NotSound,
            free: 0,
            promised: 0,
        };
    };
    Figures {
        answer: Answer::Done,
        free: (House::ROWS - house.used) as u32,
        promised,
    }
}

// Closes a slot: its rows return to free.
pub fn close_slot(house: House, slot: u32) -> Answered
    ensures { result ≡ close_slot house slot }
{
    let (i, _) = match open_at(&house, slot) {
        Ok(open) => open,
        Err(answer) => return answer_with(answer, house),
    };
    let mut h = house;
    h.used = rows::drop_slot(&mut h.keys, &mut h.counts, h.used, i);
    h.slots[i] = Slot::closed();
    answer_with(Answer::Done, h)
}
