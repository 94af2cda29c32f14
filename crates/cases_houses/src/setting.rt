// Houses set field by field: the calls would let none of those be reached that is not sound.
use fixtures::{byte_at, fill, four_at, rising_keys, session_of};
use house::{House, Slot};

// No slot is past the last.
pub(crate) fn with_slot(house: House, bytes: &[u8]) -> House {
    let n = usize::from(byte_at(bytes, 0));
    if bytes.len() < 6 || House::SLOTS <= n {
        return house;
    }
    let mut next = house;
    next.slots[n] = Slot {
        taken: byte_at(bytes, 1) == 1,
        floor: four_at(bytes, 2),
        session: session_of(&bytes[6..]),
        held: 0,
    };
    next
}

// So many bytes held for a slot.
pub(crate) fn with_held(house: House, bytes: &[u8]) -> House {
    let n = usize::from(byte_at(bytes, 0));
    if House::SLOTS <= n {
        return house;
    }
    let mut next = house;
    next.slots[n].held = four_at(bytes, 1) as usize;
    next
}

pub(crate) fn with_rows(house: House, bytes: &[u8]) -> House {
    let mut keys = [0; House::ROWS];
    fill(&mut keys, bytes, 4, 16);
    let mut counts = [0; House::ROWS];
    fill(&mut counts, bytes, 12, 16);
    House {
        keys,
        counts,
        used: four_at(bytes, 0) as usize,
        ..house
    }
}

pub(crate) fn with_keys(house: House, bytes: &[u8]) -> House {
    House {
        keys: rising_keys(),
        counts: [1; House::ROWS],
        used: four_at(bytes, 0) as usize,
        ..house
    }
}
