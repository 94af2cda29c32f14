// Cases of records and of one session, as a script on standard input: document 01, "Record frame and kinds", "Order of
// a stream", "Order of checks" and "A house is sound". Held to the file stdout. A line is `LABEL: VERB BYTES` (crate
// case_lines), and all words behind the verb are bytes in hexadecimal. CPU is 01, high byte first, or 02, low byte
// first.
//
//     type TYP                  the subtypes of a type that are known: those that have a name, and runs of custom ones
//     order TYP SUB             where the kind takes a stream from each place, or 8
//     fits CPU TYP SUB BODY     0, or 7
//     body CPU TYP SUB BODY     what is read of a body, or 7
//     lengths CPU TYP SUB BODY  which lengths of a body fit, if it is cut at each
//     places RECORD             where a session goes from each place, or the number that it is refused with
//     new                       a session that has followed nothing yet
//     session PLACE CPU OPENED PCR RESULTS PARTS WAFERS NUMBER    one put together by hand (fixtures, session_of)
//     deliver RECORD            its number, the row that it asks for, the place after it, open parts, accepted PRRs,
//                               open wafers if there are any
#![tactic(auto)]

mod bodies_read;
mod kinds_named;
mod lengths;
mod sessions;

use case_lines::play_all;
use fixtures::{byte_at, order_at, session_of};
use kinds::kind_of;
use session::Session;
use std::io;

// What is asked of a body, which stands behind CPU, TYP and SUB.
fn ask_body(rt: &impl Print, verb: u8, bytes: &[u8]) -> io::Result<()> {
    if bytes.len() < 3 {
        return println!(rt; "?");
    }
    let order = order_at(bytes[0]);
    let kind = kind_of(bytes[1], bytes[2]);
    let body = &bytes[3..];
    match verb {
        b'f' => lengths::say_fit(rt, order, kind, body),
        b'l' => lengths::say_lengths(rt, order, kind, body),
        b'b' => bodies_read::say_body(rt, order, kind, body),
        _ => println!(rt; "?"),
    }
}

fn ask(rt: &impl Print, verb: u8, bytes: &[u8]) -> io::Result<()> {
    match verb {
        b't' => kinds_named::say_type(rt, byte_at(bytes, 0)),
        b'o' => kinds_named::say_steps(rt, kind_of(byte_at(bytes, 0), byte_at(bytes, 1))),
        b'p' => sessions::say_places(rt, bytes),
        _ => ask_body(rt, verb, bytes),
    }
}

// The session after a call: most leave it.
fn play(rt: &impl Print, session: Session, verb: u8, bytes: &[u8]) -> io::Result<Session> {
    match verb {
        b'n' => Ok(Session::begin()),
        b's' => Ok(session_of(bytes)),
        b'd' => sessions::deliver(rt, session, bytes),
        _ => {
            ask(rt, verb, bytes)?;
            Ok(session)
        }
    }
}

fn main(rt: HostRuntime) -> io::Result<()> {
    let mut session = Session::begin();
    let mut space = [0u8; 65536];
    play_all(&rt, &mut rt.stdin(), &mut space, |verb, bytes| {
        session = play(&rt, session, verb, bytes)?;
        Ok(())
    })
}
