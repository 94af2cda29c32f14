// The words of a line of the desk, and its verbs: where a word ends, and which verb it is. It knows of no house: any
// program that reads lines can stand on it.
#![tactic(auto)]

mod words;

pub use words::{verb_of, word_end};

// What a line asks for, by its first word.
#[derive(Clone, Copy)]
pub enum Verb {
    Fresh,
    Open,
    Deliver,
    Report,
    Close,
    Figures,
    Feed,
    End,
    Write,
    Read,
    Help,
    Other,
}
