// The desk: calls from standard input, one a line, and their answers, one a line. For operators and for tests: document
// 01, "The house, its slots and its rows", Calls; document 02, #102.
//
//     fresh                 0
//     open SLOT FLOOR       N
//     deliver SLOT HEX      N, or: 12 HEAD SITE
//     report SLOT LENGTH    N, or: 0 COUNT H/S/B=C H/S/B=C ..
//     close SLOT            N
//     figures               N, or: 0 FREE PROMISED
//     feed SLOT LENGTH HEX  N TAKEN, or: 12 HEAD SITE TAKEN
//     end SLOT              N
//     help                  these calls, in lines that begin with `#`
//
// A feed is lent LENGTH bytes as the slot's carry, of which the desk has one more than is right for each slot: a LENGTH
// above 65,540 counts as that. TAKEN is how many bytes of the chunk were taken. A chunk may be as long as a line takes.
//
// And "Count lines": a record to its line, a line to its record, at the offset AT of a lent output of LENGTH bytes,
// each `aa` before the call. It is shown whole afterwards.
//
//     write ORDER AT LENGTH HEX    N OUT, or: 0 BYTES OUT
//     read ORDER AT LENGTH HEX     N OUT, or: 0 BYTES OUT
//
// One space stands between words. Hex is lower case, `-` is no bytes; numbers are decimal, one digit or more, however
// many. A line that begins with `#` is copied, an empty one stays empty, and any other line that is no call answers `?`,
// `write` and `read` with a LENGTH above 4,096 among them. What a line asks for is the crate requests' to say; here it is
// played, and what came back is written.
#![tactic(auto)]

mod answering;
mod carries;
mod help;
mod house_calls;

use std::io;

fn main(rt: HostRuntime) -> io::Result<()> {
    answering::answer_all(&rt, &mut rt.stdin())
}
