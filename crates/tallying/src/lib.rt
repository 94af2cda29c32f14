// The text of one whole stream, written at its end: document 01, "Tally program". Crate `following` has the stream, chunk
// by chunk. What is promised is a function of all bytes: specs/Text.antt; specs/Told.antt says it of the calls and their
// answers.
#![tactic(auto)]

ghost use Rattle.std.specs.Prelude.{◌≡◌, ◌+◌, ◌≤◌, length, take};
ghost use Rattle.order.specs.Laws.{ended as is_ended};
ghost use Rattle.output.specs.Placed.{Put};
ghost use Rattle.walking.specs.Lent.{past_count};
ghost use Rattle.tallying.specs.Text.{report_lines, left_over, stopped_line, ended_with, ended};
ghost use Rattle.following.specs.Lent.{stream_house, progress_of};
ghost use Rattle.tallying.specs.Lined.{most_text};

use answers::Answer;
use first_record::judge_first;
use following::Stream;
use house::{House, Slot};
use order::Place;
use reports::list_rows;
use session::{Session, is_start, verdict_answer};
use soundness::is_sound;
use tally_lines::{put_refused, put_rows, put_too_long, put_unfinished};
use walking::Stop;

// The house that a stream's rows and session stand for.
fn house_of(s: Stream) -> House
    ensures { result ≡ stream_house s }
{
    let Stream {
        keys,
        counts,
        used,
        standing,
        parts,
        ..
    } = s;
    let mut slots = [Slot::closed(); House::SLOTS];
    slots[0] = Slot {
        session: Session { standing, parts },
        ..Slot::opened(1024)
    };
    House {
        keys,
        counts,
        used,
        slots,
    }
}

// One HBR line for each row, in the order of a report.
fn put_report(out: &mut [u8], h: House) -> usize
    requires { most_text ≤ length out.old }
    ensures { Put (report_lines h) out.old result out.new }
{
    let list = list_rows(h, 0, 1024);
    put_rows(out, &list.rows[..list.reported.rows])
}

fn is_ended(place: Place) -> bool
    ensures { result ≡ is_ended place }
{
    place == Place::Ended
}

// What bytes left over are refused with: 3, but the first record is all bytes where they are fewer than six. It is
// judged by itself, so that the walk over a chunk alone delivers, and its code stands in one place.
fn left_over(s: Stream, bytes: &[u8]) -> Answer
    ensures { result ≡ left_over (stream_house s) bytes.now }
{
    if !is_start(s.standing.place) {
        return Answer::NotOneRecord;
    }
    if is_sound(house_of(s)) {
        verdict_answer(judge_first(s.standing, bytes))
    } else {
        Answer::NotSound
    }
}

fn finish_going(s: Stream, buf: &[u8], out: &mut [u8]) -> usize
    requires { (s.held ≤ length buf.now) × (s.accepted + 1 ≤ past_count) × (most_text ≤ length out.old) }
    ensures { Put (ended_with (stream_house s) s.accepted (take s.held buf.now))
        out.old result out.new }
{
    if 0 < s.held {
        return put_refused(out, left_over(s, &buf[..s.held]), s.accepted + 1);
    }
    if is_ended(s.standing.place) {
        put_report(out, house_of(s))
    } else {
        put_unfinished(out, s.accepted)
    }
}

// What stopped a stream, at the record behind so many accepted ones.
fn put_stopped(out: &mut [u8], why: Stop, accepted: u64) -> usize
    requires { (accepted + 1 ≤ past_count) × (most_text ≤ length out.old) }
    ensures { Put (stopped_line why (accepted + 1)) out.old result out.new }
{
    match why {
        Stop::Refused(answer) => put_refused(out, answer, accepted + 1),
        Stop::TooLong => put_too_long(out, accepted + 1),
    }
}

// The text of a stream that has ended, at the start of the lent output. Answers how many bytes it has.
pub fn finish(s: Stream, buf: &[u8], out: &mut [u8]) -> usize
    requires { (s.held ≤ length buf.now) × (s.accepted + 1 ≤ past_count) × (most_text ≤ length out.old) }
    ensures { Put (ended (progress_of s buf.now)) out.old result out.new }
{
    match s.fate {
        None => finish_going(s, buf, out),
        Some(why) => put_stopped(out, why, s.accepted),
    }
}
