// The carries of all slots, and what of them is lent to a call. Each has one byte more than a carry's right length, so
// that a wrong one can be lent, too.
use asked_calls::Call;
use house::House;

const CARRY: usize = 65540;

pub(crate) type Carries = [[u8; CARRY]; House::SLOTS];

pub(crate) fn no_carries() -> Carries {
    [[0; CARRY]; House::SLOTS]
}

// To a feed its slot's carry is lent, as long as it asks, and to every other call nothing; nor where there is no such
// slot: that is answered before the length is looked at.
pub(crate) fn lent_to(carries: &mut Carries, call: Call) -> &mut [u8] {
    if let Call::Feed(slot, long) = call {
        if let Some(carry) = carries.get_mut(slot as usize) {
            return &mut carry[..long.min(CARRY)];
        }
    }
    &mut []
}
