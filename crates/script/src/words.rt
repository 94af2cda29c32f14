// Where a word ends, and which verb it is.
ghost use Rattle.std.specs.Prelude.{◌≡◌, ◌==◌, ◌≤◌, length, position};
ghost use Rattle.script.specs.Words.{word_end, verb_of};

use crate::Verb;
use matching::same_bytes;

fn first_space(text: &[u8]) -> Option<usize>
    ensures { result ≡ position (λ b. b == 32) text.now }
{
    text.iter().position(|b| *b == b' ')
}

// Where the word that starts at `from` ends: at the next space, or at the line's end.
pub fn word_end(line: &[u8], from: usize) -> usize
    requires { from ≤ length line.now }
    ensures { (result ≡ word_end line.now from) × (from ≤ result) × (result ≤ length line.now) }
{
    match first_space(&line[from..]) {
        Some(n) => from + n,
        None => line.len(),
    }
}

// Which verb a word is. Tests and no `match` on the bytes: that is proved byte by byte, once for each way to be no verb.
#[tactic(auto, unfolding(crate::specs::Words::verb_of))]
pub fn verb_of(word: &[u8]) -> Verb
    ensures { result ≡ verb_of word.now }
{
    if same_bytes(word, b"deliver") {
        Verb::Deliver
    } else if same_bytes(word, b"open") {
        Verb::Open
    } else if same_bytes(word, b"report") {
        Verb::Report
    } else if same_bytes(word, b"close") {
        Verb::Close
    } else if same_bytes(word, b"figures") {
        Verb::Figures
    } else if same_bytes(word, b"fresh") {
        Verb::Fresh
    } else if same_bytes(word, b"write") {
        Verb::Write
    } else if same_bytes(word, b"read") {
        Verb::Read
    } else if same_bytes(word, b"help") {
        Verb::Help
    } else if same_bytes(word, b"feed") {
        Verb::Feed
    } else if same_bytes(word, b"end") {
        Verb::End
    } else {
        Verb::Other
    }
}
