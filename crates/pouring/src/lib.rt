// Bytes that are held and a chunk behind them, poured to one slot over lent rows: document 02, #102. The carry is walked
// first and topped up from the chunk while it holds part of a record; then the chunk, where it lies. A record that lies
// whole in the chunk is judged there; only one that is cut is copied. specs/Pouring.antt says what it comes to. No house is
// known here.
#![tactic(auto)]

ghost use Rattle.std.specs.Prelude.{◌≡◌, false, [], ◌++◌, ◌+◌, ◌≤◌, ◌<◌, length, take, drop};
ghost use Rattle.house.specs.House.{carry_length};
ghost use Rattle.cutting.specs.Needed.{needed};
ghost use Rattle.cutting.specs.Walk.{Waits, walked};
ghost use Rattle.pouring.specs.Pouring.{pouring, Lends, answer_of, ends_in, pour_core, goes_on};
ghost use Rattle.pouring.specs.Pouring.{halted, held_to, Carried, Flows, Tops, Pours};

use answers::Answer;
use cutting::{keep, needed};
use house::{House, Room};
use output::put_part;
use session::Standing;
use walking::{Stop, stage_of, standing_of, walk};

// How far a feed is, but for rows, guesses and parts, which are lent: `held` bytes stand at the front of the carry, and
// `at` bytes of the chunk were moved there, or judged where they lie.
#[derive(Clone, Copy)]
pub struct Pour {
    pub used: usize,
    pub standing: Standing,
    pub fate: Option<Stop>,
    pub held: usize,
    pub at: usize,
}

// What a feed that came so far is answered: no record is too long for a carry, so that is never said.
pub fn answer_of(fate: Option<Stop>) -> Answer
    ensures { result ≡ answer_of fate }
{
    match fate {
        None => Answer::Done,
        Some(Stop::Refused(answer)) => answer,
        Some(Stop::TooLong) => Answer::NotOneRecord,
    }
}

// Whether the carry is to be topped up: part of a record stands there, and there is more of the chunk.
fn goes_on(p: Pour, end: usize) -> bool
    ensures { result ≡ goes_on p end }
{
    p.fate.is_none() && p.held != 0 && p.at < end
}

// The records that stand whole in the carry; what is left of it comes to the front.
fn pour_carry(
    keys: &mut [u64],
    counts: &mut [u64],
    guesses: &mut [u16],
    parts: &mut [u64],
    room: Room,
    p: Pour,
    carry: &mut [u8],
) -> Pour
    requires { Carried room keys.old counts.old parts.old p carry.old }
    ensures { Flows room keys.old counts.old parts.old p carry.old
        keys.new counts.new parts.new result carry.new }
{
    let w = walk(
        keys,
        counts,
        guesses,
        parts,
        room,
        House::CARRY,
        stage_of(p.used, p.standing, 0, None, 0, true),
        &carry[..p.held],
    );
    Pour {
        used: w.used,
        standing: standing_of(w),
        fate: w.fate,
        held: keep(carry, w.at, p.held),
        at: p.at,
    }
}

// How many bytes to move: what the record lacks, one at the least, since what stands in the carry is no whole record; if
// there are as many and there is room.
fn share(wanted: usize, held: usize, left: usize, room: usize) -> usize
    requires { (1 ≤ left) × (1 ≤ room) }
    ensures { (1 ≤ result) × ((result ≤ left) × (result ≤ room)) }
{
    wanted.saturating_sub(held).max(1).min(left).min(room)
}

// Moves bytes of the chunk behind those held, for the record that is not whole.
fn top_up(st: Standing, carry: &mut [u8], held: usize, chunk: &[u8], at: usize) -> usize
    requires { (held < length carry.old) × (at < length chunk.now) }
    ensures { (1 ≤ result) × ((at + result ≤ length chunk.now) × ((held + result ≤ length carry.old)
        × (take (held + result) carry.new
        ≡ take held carry.old ++ take result (drop at chunk.now)))) }
{
    let wanted = needed(st, &carry[..held]);
    let n = share(wanted, held, chunk.len() - at, carry.len() - held);
    put_part(&mut carry[held..], chunk, at, n)
}

// A refused record in the carry: it stays, with what was held behind it; bytes of the chunk behind it are not taken.
fn stop_at(p: Pour, carry: &[u8]) -> Pour
    requires { p.held ≤ length carry.now }
    ensures { result ≡ halted p (needed p.standing (take p.held carry.now)) }
{
    let behind = p.held - needed(p.standing, &carry[..p.held]).min(p.held);
    let left = behind.min(p.at);
    Pour {
        held: p.held - left,
        at: p.at - left,
        ..p
    }
}

// Where the bytes end that are held of those left from `from` on: all of them, or the refused record.
fn held_to(fate: Option<Stop>, st: Standing, chunk: &[u8], from: usize) -> usize
    requires { from ≤ length chunk.now }
    ensures { result ≡ held_to fate st chunk.now from }
{
    match fate {
        None => chunk.len(),
        Some(_) => from + needed(st, &chunk[from..]).min(chunk.len() - from),
    }
}

// The records of the chunk, where they lie: no byte is held before them. What is held then is copied.
fn pour_chunk(
    keys: &mut [u64],
    counts: &mut [u64],
    guesses: &mut [u16],
    parts: &mut [u64],
    room: Room,
    p: Pour,
    carry: &mut [u8],
    chunk: &[u8],
) -> Pour
    requires { Lends room (pour_core keys.old counts.old parts.old p) × (p.at ≤ length chunk.now)
        × (length carry.old ≡ carry_length) }
    ensures { Pours (walked (pouring room)
        (Waits (pour_core keys.old counts.old parts.old p) [])
        (drop p.at chunk.now)) chunk.now
        (pour_core keys.new counts.new parts.new result) result carry.new }
{
    let w = walk(
        keys,
        counts,
        guesses,
        parts,
        room,
        House::CARRY,
        stage_of(p.used, p.standing, 0, None, p.at, true),
        chunk,
    );
    let standing = standing_of(w);
    let end = held_to(w.fate, standing, chunk, w.at);
    Pour {
        used: w.used,
        standing,
        fate: w.fate,
        held: put_part(carry, chunk, w.at, end - w.at),
        at: end,
    }
}

// Tops the carry up, and judges what stands whole there then.
fn pour_more(
    keys: &mut [u64],
    counts: &mut [u64],
    guesses: &mut [u16],
    parts: &mut [u64],
    room: Room,
    p: Pour,
    carry: &mut [u8],
    chunk: &[u8],
) -> Pour
    requires { Lends room (pour_core keys.old counts.old parts.old p) × (p.held < carry_length)
        × (p.at < length chunk.now) × (length carry.old ≡ carry_length) }
    ensures { Tops room (pour_core keys.old counts.old parts.old p) p
        carry.old chunk.now
        (pour_core keys.new counts.new parts.new result) result carry.new }
{
    let n = top_up(p.standing, carry, p.held, chunk, p.at);
    let topped = Pour {
        fate: None,
        held: p.held + n,
        at: p.at + n,
        ..p
    };
    pour_carry(keys, counts, guesses, parts, room, topped, carry)
}

// What is left of a chunk once the carry asks for no more of it.
fn pour_rest(
    keys: &mut [u64],
    counts: &mut [u64],
    guesses: &mut [u16],
    parts: &mut [u64],
    room: Room,
    p: Pour,
    carry: &mut [u8],
    chunk: &[u8],
) -> Pour
    requires { Lends room (pour_core keys.old counts.old parts.old p) × (p.at ≤ length chunk.now)
        × (length carry.old ≡ carry_length) × (p.held ≤ carry_length)
        × (goes_on p (length chunk.now) ≡ false) }
    ensures { Pours (walked (pouring room)
        (ends_in p.fate (pour_core keys.old counts.old parts.old p)
        (take p.held carry.old))
        (drop p.at chunk.now)) chunk.now
        (pour_core keys.new counts.new parts.new result) result carry.new }
{
    match p.fate {
        Some(_) => stop_at(p, carry),
        None if p.held == 0 => { pour_chunk(keys, counts, guesses, parts, room, p, carry, chunk) }
        None => p,
    }
}

// All of it: a record that was whole in the carry is judged before a byte of the chunk is taken.
pub fn pour_all(
    keys: &mut [u64],
    counts: &mut [u64],
    guesses: &mut [u16],
    parts: &mut [u64],
    room: Room,
    p: Pour,
    carry: &mut [u8],
    chunk: &[u8],
) -> Pour
    requires { Carried room keys.old counts.old parts.old p carry.old × (p.at ≡ 0) }
    ensures { Pours (walked (pouring room)
        (Waits (pour_core keys.old counts.old parts.old p) [])
        (take p.held carry.old ++ chunk.now)) chunk.now
        (pour_core keys.new counts.new parts.new result) result carry.new }
{
    let mut q = pour_carry(keys, counts, guesses, parts, room, p, carry);
    while goes_on(q, chunk.len()) {
        q = pour_more(keys, counts, guesses, parts, room, q, carry, chunk);
    }
    pour_rest(keys, counts, guesses, parts, room, q, carry, chunk)
}
