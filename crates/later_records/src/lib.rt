// The later records of a stream: document 01, "Order of checks", Later records.
#![tactic(auto)]

ghost use Rattle.std.specs.Prelude.{◌≡◌};
ghost use Rattle.session.specs.Session.{LentParts};
ghost use Rattle.later_records.specs.Later.{judge_later};

use answers::Answer;
use bodies::read_body;
use frames::is_record;
use kind_effects::judge_said;
use kinds::{is_known, kind_of};
use order::next_place;
use session::{Standing, Verdict};

// What a later record does to a session whose cells are lent: nothing is copied, and nothing is tested that the caller
// knows. In the body, a record whose body is not read looks at none of them.
pub fn judge_later(st: Standing, parts: &[u64], rec: &[u8]) -> Verdict
    requires { LentParts st parts.now }
    ensures { result ≡ judge_later st parts.now rec.now }
{
    if !is_record(st.order, rec) {
        return Verdict::Refused(Answer::NotOneRecord);
    }
    let kind = kind_of(rec[2], rec[3]);
    if !is_known(kind) {
        return Verdict::Refused(Answer::UnknownKind);
    }
    let Some(place) = next_place(st.place, kind) else {
        return Verdict::Refused(Answer::OutOfPlace);
    };
    let Some(said) = read_body(st.order, kind, &rec[4..]) else {
        return Verdict::Refused(Answer::BodyMisfit);
    };
    judge_said(Standing { place, ..st }, parts, said)
}
