// A strictly rising list tested and searched faster than `rising` does it, where more is known of it: document 01, "The
// house, its slots and its rows", for the keys of a house's rows. The answers are the same.
#![tactic(auto)]

ghost use Rattle.std.specs.Prelude.{◌≡◌, true, ◌≤◌, length, take};
ghost use Rattle.rising.specs.Rising.{rising, rank, all_below};

const HALF: u64 = 9223372036854775808;

// Whether each of the first `used` elements, all below 2^63, is above the one before it: 2^63 and an element, less the
// next one, is below 2^63 exactly if the next one is above it. All these numbers are joined bit by bit, and the highest
// bit tells. Nothing is compared, so that even the plainest processor takes several elements at a time.
pub fn rises_below(s: &[u64], used: usize) -> bool
    requires { (used ≤ length s.now) × (all_below 9223372036854775808 (take used s.now) ≡ true) }
    ensures { result ≡ rising (take used s.now) }
{
    let mut falls: u64 = 0;
    for at in 1..used {
        falls |= s[at - 1] + HALF - s[at];
    }
    falls / HALF == 0
}

// The rank of `key`, as rising::rank_of has it, in a list of at most `most` elements. How many turns it takes depends
// on `most` alone, and an element only tells where the next one is read: with a constant there is no branch to be
// foreseen. The three elements of a turn are read at once, so a quarter is left after about the time of one.
pub fn rank_among(s: &[u64], used: usize, most: usize, key: u64) -> usize
    requires { (used ≤ most) × (most ≤ 65536) × (used ≤ length s.now) × (rising (take used s.now) ≡ true) }
    ensures { result ≡ rank key (take used s.now) }
{
    if used == 0 {
        return 0;
    }
    let mut at: usize = 0;
    let mut n = used;
    let mut width = most;
    while width > 1 {
        // Each test on its own, and no loop over the three: so their elements are read at once.
        let left = (n + 3) / 4;
        let first = at + n / 4;
        let middle = at + n / 2;
        let last = at + (n - left);
        if s[first] < key {
            at = first;
        }
        if s[middle] < key {
            at = middle;
        }
        if s[last] < key {
            at = last;
        }
        n = left;
        width = (width + 3) / 4;
    }
    if s[at] < key { at + 1 } else { at }
}

// The same, with a guess, which may be any number: where it is right there is nothing to search.
pub fn rank_guessed(s: &[u64], used: usize, most: usize, guess: usize, key: u64) -> usize
    requires { (used ≤ most) × (most ≤ 65536) × (used ≤ length s.now) × (rising (take used s.now) ≡ true) }
    ensures { result ≡ rank key (take used s.now) }
{
    if guess < used && s[guess] == key {
        return guess;
    }
    rank_among(s, used, most, key)
}
