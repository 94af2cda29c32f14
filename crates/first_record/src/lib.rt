// The first record of a stream: document 01, "Order of checks", First record.
#![tactic(auto)]

ghost use Rattle.std.specs.Prelude.{◌≡◌};
ghost use Rattle.first_record.specs.First.{judge_first};

use answers::Answer;
use order::Place;
use session::{Change, Standing, Verdict};

// What a first record does to any session that stands at its start. The length field can be read once CPU_TYPE told the
// order.
#[tactic(auto, unfolding(crate::specs::First::judge_first, crate::specs::First::judge_in))]
pub fn judge_first(st: Standing, rec: &[u8]) -> Verdict
    ensures { result ≡ judge_first st rec.now }
{
    if rec.len() < 4 {
        return Verdict::Refused(Answer::NotOneRecord);
    }
    if rec[2] != 0 || rec[3] != 10 {
        return Verdict::Refused(Answer::OutOfPlace);
    }
    if rec.len() != 6 {
        return Verdict::Refused(Answer::NotOneRecord);
    }
    let Some(order) = numbers::order_of(rec[4]) else {
        return Verdict::Refused(Answer::UnknownOrder);
    };
    if numbers::u2(order, rec) != 2 {
        return Verdict::Refused(Answer::NotOneRecord);
    }
    if rec[5] != 4 {
        return Verdict::Refused(Answer::WrongVersion);
    }
    Verdict::Taken(Change::Stands(Standing {
        place: Place::Header,
        order,
        ..st
    }))
}
