// A line taken apart: document 01, "Count lines", Read; #103, WIR and WRR lines.
#![tactic(auto)]

pub mod contents;
mod pieces;

use values::Name;

// A piece of a text, by its place, and where the next one begins, if there are more.
#[derive(Clone, Copy)]
pub struct Piece {
    pub place: Name,
    pub next: Option<usize>,
}
