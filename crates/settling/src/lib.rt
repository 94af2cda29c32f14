// A verdict settled: the session after a record. Document 01, Calls, Deliver, as one session sees it. Here alone is it
// known what a change does, over lent cells and by value.
#![tactic(auto)]

ghost use Rattle.std.specs.Prelude.{◌≡◌, length};
ghost use Rattle.settling.specs.Settling.{lent_session, changed, after, Within, Settles};

use rising::{insert, remove};
use session::{Change, Session, Standing, Verdict};

// A change settled over the lent parts and wafers of a session: the standing after it.
pub fn settle_parts(st: Standing, parts: &mut [u64], change: Change) -> Standing
    requires { (length parts.old ≡ 40) × Within st change }
    ensures { lent_session result parts.new ≡ changed (lent_session st parts.old) change }
{
    match change {
        Change::Stands(next) => next,
        Change::Opens { next, rank, part } => {
            insert(parts, st.opened, rank, part);
            next
        }
        Change::Closes { next, rank } => {
            remove(parts, st.opened, rank, 1);
            next
        }
        Change::WaferOpens { next, rank, wafer } => {
            insert(&mut parts[Session::PARTS..], st.wafers, rank, wafer);
            next
        }
        Change::WaferCloses { next, rank } => {
            remove(&mut parts[Session::PARTS..], st.wafers, rank, 1);
            next
        }
    }
}

// The session after a change.
pub fn settle(mut session: Session, change: Change) -> Session
    requires { Within session.standing change }
    ensures { result ≡ changed session change }
{
    session.standing = settle_parts(session.standing, &mut session.parts, change);
    session
}

// The session after a verdict on it; of a part result, if its row is granted.
pub fn settle_verdict(session: Session, verdict: Verdict) -> Session
    requires { Settles session.standing verdict }
    ensures { result ≡ after session verdict }
{
    match verdict {
        Verdict::Refused(_) => session,
        Verdict::Taken(change) | Verdict::Wanted(change, _) => settle(session, change),
    }
}
