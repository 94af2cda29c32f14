// The call that delivers a record: document 01, "The house, its slots and its rows", Calls, Deliver, with its order of
// checks. A refusal gives the house back as it came: it takes a house by value, tests its soundness and answers, whatever
// is handed in.
#![tactic(auto)]

ghost use Rattle.std.specs.Prelude.{◌≡◌, true};
ghost use Rattle.session.specs.Session.{sound};
ghost use Rattle.settling.specs.Settling.{Settles};
ghost use Rattle.judging.specs.Judge.{verdict_on};
ghost use Rattle.house.specs.Calls.{deliver, settled_to, with_outcome, Settleable};

use answers::Answer;
use calls::answer_with;
use house::{Answered, House, Slot};
use judging::judge_lent;
use lent::settle_lent;
use session::{Session, Verdict};
use settling::settle;
use soundness::{open_at, room_of};

// Delivers one record to a slot.
pub fn deliver(house: House, slot: u32, rec: &[u8]) -> Answered
    ensures { result ≡ deliver house slot rec.now }
{
    let (i, owed) = match open_at(&house, slot) {
        Ok(open) => open,
        Err(answer) => return answer_with(answer, house),
    };
    let s = house.slots[i];
    settle_to(house, owed, i, s, judge_slot(s, rec))
}

// What a record does to the session of an open slot: it is judged here, once, and no house is touched.
fn judge_slot(s: Slot, rec: &[u8]) -> Verdict
    requires { sound s.session ≡ true }
    ensures { (result ≡ verdict_on s.session rec.now) × Settles s.session.standing result }
{
    let session = s.session;
    judge_lent(session.standing, &session.parts, rec)
}

// Settles a verdict on a record to an open slot of a sound house, of which the test has told how many rows it owes. One
// that asks for no row is settled in the slot, and no row is touched.
fn settle_to(house: House, owed: u32, i: usize, s: Slot, verdict: Verdict) -> Answered
    requires { Settleable house owed i s verdict }
    ensures { result ≡ with_outcome house i (settled_to house i verdict) }
{
    match verdict {
        Verdict::Refused(answer) => answer_with(answer, house),
        Verdict::Taken(change) => {
            let mut h = house;
            h.slots[i] = Slot {
                session: settle(s.session, change),
                ..s
            };
            answer_with(Answer::Done, h)
        }
        Verdict::Wanted(_, _) => settle_rows(house, owed, i, s, verdict),
    }
}

// .. and one that asks for a row: the rows and the parts are lent, so that each array is copied once. One call has
// nothing to guess by.
fn settle_rows(house: House, owed: u32, i: usize, s: Slot, verdict: Verdict) -> Answered
    requires { Settleable house owed i s verdict }
    ensures { result ≡ with_outcome house i (settled_to house i verdict) }
{
    let room = room_of(&house, owed, i);
    let Session {
        standing,
        mut parts,
    } = s.session;
    let mut guesses = [0u16; 1];
    let mut laid = house;
    let d = settle_lent(
        &mut laid.keys,
        &mut laid.counts,
        laid.used,
        &mut guesses,
        room,
        standing,
        &mut parts,
        verdict,
    );
    laid.used = d.used;
    laid.slots[i] = Slot {
        session: Session {
            standing: d.standing,
            parts,
        },
        ..s
    };
    answer_with(d.answer, laid)
}
