// A record delivered to a session, and what each place makes of a record.
use answers::Answer;
use fixtures::{byte_at, session_of};
use judging::judge_record;
use kinds::kind_of;
use session::{Session, Verdict, verdict_answer};
use std::io;
use transcript::{AnswerText, Decimal};

// The row that a part result asks for.
fn say_wanted(rt: &impl Print, verdict: Verdict) -> io::Result<()> {
    match verdict {
        Verdict::Wanted(_, key) => print!(rt;
            ", row {}/{} bin {}",
            Decimal((key / 16777216).into()),
            Decimal((key / 65536 % 256).into()),
            Decimal((key % 65536).into())
        ),
        _ => Ok(()),
    }
}

pub(crate) fn deliver(rt: &impl Print, s: Session, rec: &[u8]) -> io::Result<Session> {
    let judged = judge_record(s, rec);
    let standing = judged.session.standing;
    print!(rt; " {}", AnswerText(verdict_answer(judged.verdict)))?;
    say_wanted(rt, judged.verdict)?;
    print!(rt;
        ", {}, open {}, accepted {}",
        standing.place,
        Decimal(standing.opened as u64),
        Decimal(standing.results.into())
    )?;
    say_wafers(rt, standing.wafers)?;
    Ok(judged.session)
}

// Most sessions have no wafer open, and their lines say nothing of any.
fn say_wafers(rt: &impl Print, n: usize) -> io::Result<()> {
    if n != 0 {
        print!(rt; ", wafers {}", Decimal(n as u64))?;
    }
    println!(rt)
}

// A session at a place, low byte first, with no part open; in the body and behind the MRR a PCR was accepted.
fn session_at(place: u8) -> Session {
    session_of(&[place, 2, 0, u8::from(4 <= place)])
}

fn say_after(rt: &impl Print, place: u8, rec: &[u8]) -> io::Result<()> {
    let judged = judge_record(session_at(place), rec);
    match verdict_answer(judged.verdict) {
        Answer::Done => print!(rt; "{:>8}", judged.session.standing.place),
        refusal => print!(rt; "{:>8}", Decimal(answers::number(refusal).into())),
    }
}

pub(crate) fn say_places(rt: &impl Print, rec: &[u8]) -> io::Result<()> {
    print!(rt; "{:<7}", kind_of(byte_at(rec, 2), byte_at(rec, 3)))?;
    for place in 0..6 {
        say_after(rt, place, rec)?;
    }
    println!(rt)
}
