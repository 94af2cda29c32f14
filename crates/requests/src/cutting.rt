// A line cut into its words, and read.
ghost use Rattle.std.specs.Prelude.{◌∷◌, ◌≡◌, ◌≤◌, length, drop};
ghost use Rattle.output.specs.Placed.{Put};
ghost use Rattle.script.specs.Words.{words};
ghost use Rattle.numerals.specs.Hex.{bytes_of};
ghost use Rattle.requests.specs.Asked.{asked_by, asked, takes_bytes, hands_over, handed, Finds, FindsIn};

use crate::Request;
use asked_calls::Call;
use asking::{Asked, ask_alone, ask_four, ask_one, ask_three, ask_two};
use numerals::unhex;
use script::{Verb, verb_of, word_end};

// What a line asks for, and where its last word starts, if it hands bytes over.
#[derive(Clone, Copy)]
struct Found {
    asked: Asked,
    from: usize,
}

// No call: its words do not count.
fn no_call() -> Found
    ensures { (result.asked ≡ Asked.NoCall) × (result.from ≡ 0) }
{
    Found {
        asked: Asked::NoCall,
        from: 0,
    }
}

// The fourth word behind the verb starts at `from`. One function for each number of words, here and in asking: a list of
// words would be an array of slices with a count beside it, filled up with empty ones.
fn cut_fourth(line: &[u8], verb: Verb, order: &[u8], at: &[u8], long: &[u8], from: usize) -> Found
    requires { from ≤ length line.now }
    ensures { Finds line.now verb (order.now ∷ at.now ∷ long.now
        ∷ words (drop from line.now)) result.asked result.from }
{
    let e = word_end(line, from);
    if e < line.len() {
        return no_call();
    }
    let asked = ask_four(verb, order, at, long, &line[from..]);
    Found { asked, from }
}

// The third word starts at `from`.
fn cut_third(line: &[u8], verb: Verb, first: &[u8], second: &[u8], from: usize) -> Found
    requires { from ≤ length line.now }
    ensures { Finds line.now verb (first.now ∷ second.now
        ∷ words (drop from line.now)) result.asked result.from }
{
    let e = word_end(line, from);
    if e < line.len() {
        return cut_fourth(line, verb, first, second, &line[from..e], e + 1);
    }
    let asked = ask_three(verb, first, second, &line[from..]);
    Found { asked, from }
}

// The second word starts at `from`.
fn cut_second(line: &[u8], verb: Verb, first: &[u8], from: usize) -> Found
    requires { from ≤ length line.now }
    ensures { Finds line.now verb (first.now ∷ words (drop from line.now))
        result.asked result.from }
{
    let e = word_end(line, from);
    if e < line.len() {
        return cut_third(line, verb, first, &line[from..e], e + 1);
    }
    let asked = ask_two(verb, first, &line[from..]);
    Found { asked, from }
}

// The first word behind the verb starts at `from`.
fn cut_first(line: &[u8], verb: Verb, from: usize) -> Found
    requires { from ≤ length line.now }
    ensures { Finds line.now verb (words (drop from line.now)) result.asked result.from }
{
    let e = word_end(line, from);
    if e < line.len() {
        return cut_second(line, verb, &line[from..e], e + 1);
    }
    let asked = ask_one(verb, &line[from..]);
    Found { asked, from }
}

// A line that is neither empty nor a comment: its verb, and the words behind it.
fn cut_line(line: &[u8]) -> Found
    ensures { FindsIn line.now (asked_by (words line.now)) result.asked result.from }
{
    let e = word_end(line, 0);
    let verb = verb_of(&line[0..e]);
    if e < line.len() {
        return cut_first(line, verb, e + 1);
    }
    let asked = ask_alone(verb);
    Found { asked, from: 0 }
}

fn takes_bytes(call: Call) -> bool
    ensures { result ≡ takes_bytes call }
{
    matches!(call, Call::Deliver(_) | Call::Feed(_, _))
}

fn hands_over(asked: Asked) -> bool
    ensures { result ≡ hands_over asked }
{
    match asked {
        Asked::Play(call) => takes_bytes(call),
        Asked::Line(_, _, _, _) => true,
        _ => false,
    }
}

// The whole line. What hands no bytes over has its last word at the line's end.
fn find(line: &[u8]) -> Found
    ensures { (result.asked ≡ asked line.now) × (result.from ≤ length line.now)
        × (bytes_of (drop result.from line.now) ≡ handed line.now) }
{
    let from = line.len();
    let asked = match line {
        [] => Asked::Nothing,
        [b'#', ..] => Asked::Comment,
        _ => {
            let cut = cut_line(line);
            if hands_over(cut.asked) {
                return cut;
            }
            cut.asked
        }
    };
    Found { asked, from }
}

// Reads a line. The bytes that it hands over are laid at its start, and the rest of it stays.
pub fn read_request(line: &mut [u8]) -> Request
    ensures { (result.asked ≡ asked line.old)
        × Put (handed line.old) line.old result.bytes line.new
        × (result.bytes ≤ length line.new) }
{
    let found = find(line);
    Request {
        asked: found.asked,
        bytes: unhex(line, found.from),
    }
}
