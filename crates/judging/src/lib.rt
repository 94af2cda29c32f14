// What a delivered record does to one session, whatever it is: document 01, "Order of checks", Deliver: the record, and
// "Order of a stream". The first record of a stream and the later ones have their rules in crates of their own.
#![tactic(auto)]

ghost use Rattle.std.specs.Prelude.{◌≡◌};
ghost use Rattle.session.specs.Session.{LentParts};
ghost use Rattle.judging.specs.Judge.{judge, judged};

use answers::Answer;
use first_record::judge_first;
use later_records::judge_later;
use session::{Session, Standing, Verdict, is_sound, is_start};
use settling::settle_verdict;

// A verdict, and the whole session after it; of a part result, if its row is granted.
#[derive(Clone, Copy)]
pub struct Judged {
    pub verdict: Verdict,
    pub session: Session,
}

// What a record does to a sound session whose cells are lent: nothing is copied, and nothing is tested that the
// caller knows.
pub fn judge_lent(st: Standing, parts: &[u64], rec: &[u8]) -> Verdict
    requires { LentParts st parts.now }
    ensures { result ≡ judge st parts.now rec.now }
{
    if is_start(st.place) {
        judge_first(st, rec)
    } else {
        judge_later(st, parts, rec)
    }
}

// What a record does to any session: a session that is not sound is refused, and a refusal leaves it as it was.
pub fn judge_record(session: Session, rec: &[u8]) -> Judged
    ensures { result ≡ judged session rec.now }
{
    let verdict = if is_sound(session) {
        judge_lent(session.standing, &session.parts, rec)
    } else {
        Verdict::Refused(Answer::NotSound)
    };
    Judged {
        verdict,
        session: settle_verdict(session, verdict),
    }
}
