// What a record delivered to one open slot does, over lent rows and parts: document 01, Calls, Deliver. The caller
// knows that the house is sound: nothing is tested twice and nothing is copied, so that loops over many records stand
// on this.
#![tactic(auto)]

ghost use Rattle.std.specs.Prelude.{◌≡◌, ◌≤◌, ◌<◌, take, set};
ghost use Rattle.rising.specs.Rising.{rank};
ghost use Rattle.rows.specs.Rows.{row_key};
ghost use Rattle.settling.specs.Settling.{Within, Settles};
ghost use Rattle.judging.specs.Judge.{judge};
ghost use Rattle.house.specs.House.{LentKeys};
ghost use Rattle.house.specs.Deliver.{Grantable, LentRows, LentCore};
ghost use Rattle.house.specs.Deliver.{granted, rowed, row_taken, outcome, core, resulted_if, settled, delivered};
ghost use Rattle.house.specs.Deliver.{cell_of, noted, guessed};

use answers::Answer;
use house::{Delivered, House, Room};
use judging::judge_lent;
use rising::holds;
use rows::{SLOT_SPAN, count_row, held_by};
use searching::{rank_among, rank_guessed};
use session::{Change, Standing, Verdict};
use settling::settle_parts;

fn row_key(slot: usize, key: u32) -> u64
    requires { slot < 16 }
    ensures { result ≡ row_key slot key }
{
    slot as u64 * SLOT_SPAN + u64::from(key)
}

// Whether a key gets a row, or needs none.
fn is_granted(keys: &[u64], used: usize, room: Room, at: usize, key: u64) -> bool
    requires { Grantable room keys.now used at key }
    ensures { result ≡ granted room (take used keys.now) key }
{
    holds(keys, used, at, key)
        || held_by(keys, used, room.slot) < room.floor as usize
        || (room.others as usize) < House::ROWS - used
}

// Where the guess for a key stands among 4,096 of them.
fn cell_of(key: u32) -> usize
    ensures { result ≡ cell_of key }
{
    let key = u64::from(key);
    ((key + key * 9 / 16384) % 4096) as usize
}

// The rank of a key, looked for first where its guess says; a guess that was right is not written again. Fewer guesses,
// or none, will do: then there is a search.
fn find_row(keys: &[u64], used: usize, guesses: &mut [u16], cell: usize, key: u64) -> usize
    requires { LentKeys keys.now used }
    ensures { (result ≡ rank key (take used keys.now))
        × (guesses.new ≡ set guesses.old cell result) }
{
    let Some(&guess) = guesses.get(cell) else {
        return rank_among(keys, used, House::ROWS, key);
    };
    let guess = usize::from(guess);
    let at = rank_guessed(keys, used, House::ROWS, guess, key);
    if at != guess {
        guesses[cell] = at as u16;
    }
    at
}

// Counts a part under its key, if it is granted.
fn take_row(
    keys: &mut [u64],
    counts: &mut [u64],
    used: usize,
    guesses: &mut [u16],
    room: Room,
    cell: usize,
    key: u64,
) -> Option<usize>
    requires { LentRows room keys.old counts.old used }
    ensures { (rowed keys.new counts.new result
        ≡ row_taken room keys.old counts.old used key)
        × (guesses.new ≡ set guesses.old cell (rank key (take used keys.old))) }
{
    let at = find_row(keys, used, guesses, cell, key);
    if is_granted(keys, used, room, at, key) {
        Some(count_row(keys, counts, used, at, key))
    } else {
        None
    }
}

// A part result: counted and settled if it is granted, else refused for room. Its part closes with its row alone: where
// there is none, all stands as it stood.
fn result_lent(
    keys: &mut [u64],
    counts: &mut [u64],
    used: usize,
    guesses: &mut [u16],
    room: Room,
    st: Standing,
    parts: &mut [u64],
    change: Change,
    key: u32,
) -> Delivered
    requires { LentCore room keys.old counts.old used st parts.old × Within st change }
    ensures { (outcome result.answer keys.new counts.new result.used result.standing
        parts.new
        ≡ resulted_if room (core keys.old counts.old used st parts.old) change key)
        × (guesses.new ≡ noted room.slot (take used keys.old) key guesses.old) }
{
    match take_row(
        keys,
        counts,
        used,
        guesses,
        room,
        cell_of(key),
        row_key(room.slot, key),
    ) {
        Some(used) => Delivered {
            answer: Answer::Done,
            used,
            standing: settle_parts(st, parts, change),
        },
        None => Delivered {
            answer: Answer::NoRoom,
            used,
            standing: st,
        },
    }
}

// What a verdict on a record does to the rows and the session of one slot: who has judged settles here, and judges no
// second time. Guesses may be any numbers, and any number of them.
// Slices, here and in walking and pouring, and not a struct that lends them all: for each `&mut` in it, every contract
// would have to say besides that it is the same one after the call.
pub fn settle_lent(
    keys: &mut [u64],
    counts: &mut [u64],
    used: usize,
    guesses: &mut [u16],
    room: Room,
    st: Standing,
    parts: &mut [u64],
    verdict: Verdict,
) -> Delivered
    requires { LentCore room keys.old counts.old used st parts.old × Settles st verdict }
    ensures { (outcome result.answer keys.new counts.new result.used result.standing
        parts.new
        ≡ settled room (core keys.old counts.old used st parts.old) verdict)
        × (guesses.new
        ≡ guessed room (core keys.old counts.old used st parts.old) verdict
        guesses.old) }
{
    match verdict {
        Verdict::Refused(answer) => Delivered {
            answer,
            used,
            standing: st,
        },
        Verdict::Taken(change) => Delivered {
            answer: Answer::Done,
            used,
            standing: settle_parts(st, parts, change),
        },
        Verdict::Wanted(change, key) => result_lent(
            keys, counts, used, guesses, room, st, parts, change, key,
        ),
    }
}

// What a record does to the rows and the session of one slot.
pub fn deliver_lent(
    keys: &mut [u64],
    counts: &mut [u64],
    used: usize,
    guesses: &mut [u16],
    room: Room,
    st: Standing,
    parts: &mut [u64],
    rec: &[u8],
) -> Delivered
    requires { LentCore room keys.old counts.old used st parts.old }
    ensures { (outcome result.answer keys.new counts.new result.used result.standing
        parts.new
        ≡ delivered room (core keys.old counts.old used st parts.old)
        rec.now)
        × (guesses.new
        ≡ guessed room (core keys.old counts.old used st parts.old)
        (judge st parts.old rec.now) guesses.old) }
{
    let verdict = judge_lent(st, parts, rec);
    settle_lent(keys, counts, used, guesses, room, st, parts, verdict)
}
