// The fields of a line, one piece of text each.
ghost use Rattle.std.specs.Prelude.{◌≡◌, true, ◌+◌, ◌≤◌, ◌<◌, Some, IfSome, length, get_or, drop};
ghost use Rattle.dates.specs.Reading.{date_of};
ghost use Rattle.line_layouts.specs.Columns.{columns, back};
ghost use Rattle.line_layouts.specs.Entries.{named};
ghost use Rattle.line_layouts.specs.Fitting.{letter_fits};
ghost use Rattle.line_texts.specs.Pieces.{split, gathered, dated_numeral, numeral_in};
ghost use Rattle.line_texts.specs.Pieces.{number_fits, value_fits, piece_fits, fields_fit};
ghost use Rattle.line_texts.specs.Places.{no_place, number_said, said_in, line_in, Ends, Next, CutInto, CutAt};

use super::Piece;
use line_layouts::columns::{MOST_COLUMNS, back_at, column_count, columns};
use line_layouts::forms::{is_name, is_number, is_time};
use line_layouts::names::part_allowed;
use line_layouts::{Column, Form, Line, Said, Tag};
use values::Name;

fn date_in(piece: &[u8]) -> Option<u64>
    ensures { result ≡ dated_numeral (date_of piece.now) }
{
    dates::read_date(piece).map(u64::from)
}

// The number that a piece says: a date's seconds, or what its digits are worth.
fn numeral_in(form: Form, piece: &[u8]) -> Option<u64>
    ensures { result ≡ numeral_in form piece.now }
{
    if is_time(form) {
        date_in(piece)
    } else {
        digits::read_number(piece)
    }
}

fn number_fits(form: Form, piece: &[u8], most: u32) -> bool
    ensures { result ≡ number_fits most (numeral_in form piece.now) }
{
    numeral_in(form, piece).is_some_and(|n| n <= u64::from(most))
}

fn letter_fits(piece: &[u8]) -> bool
    ensures { result ≡ letter_fits piece.now }
{
    matches!(piece, [b'P' | b'F', ..])
}

fn value_fits(sep: u8, column: Column, piece: &[u8]) -> bool
    ensures { result ≡ value_fits sep column piece.now }
{
    if is_number(column.form) {
        number_fits(column.form, piece, column.most)
    } else if is_name(column.form) {
        part_allowed(sep, piece)
    } else {
        letter_fits(piece)
    }
}

// Whether a piece is the text of a column.
fn piece_fits(sep: u8, column: Column, piece: &[u8]) -> bool
    ensures { result ≡ piece_fits sep column piece.now }
{
    if piece.is_empty() {
        !column.required
    } else {
        value_fits(sep, column, piece)
    }
}

// Where the piece that begins at `from` ends: at the next separator, or with the text.
fn piece_end(text: &[u8], sep: u8, from: usize) -> usize
    requires { from ≤ length text.now }
    ensures { Ends sep text.now from result }
{
    match text[from..].iter().position(|b| *b == sep) {
        Some(len) => from + len,
        None => text.len(),
    }
}

// Behind the last piece there are empty ones, which stand nowhere.
fn piece_at(text: &[u8], sep: u8, from: Option<usize>) -> Piece
    requires { IfSome from (λ k. k ≤ length text.now) }
    ensures { Next sep text.now from result }
{
    let Some(at) = from else {
        return Piece {
            place: Name { at: 0, len: 0 },
            next: None,
        };
    };
    let to = piece_end(text, sep, at);
    let place = Name { at, len: to - at };
    if to < text.len() {
        Piece {
            place,
            next: Some(to + 1),
        }
    } else {
        Piece { place, next: None }
    }
}

// The text behind a tag, cut at its separators into as many pieces as the tag has columns: where there are more, it is an
// error, with the first ones.
pub fn cut(text: &[u8], sep: u8, tag: Tag) -> Result<[Name; MOST_COLUMNS], [Name; MOST_COLUMNS]>
    requires { 4 ≤ length text.now }
    ensures { CutAt sep text.now tag result }
{
    let mut places = [Name { at: 0, len: 0 }; MOST_COLUMNS];
    let mut from = Some(4);
    for j in 0..column_count(tag) {
        let piece = piece_at(text, sep, from);
        places[j] = piece.place;
        from = piece.next;
    }
    match from {
        Some(_) => Err(places),
        None => Ok(places),
    }
}

// The place of the piece that column j takes.
fn place_of(places: [Name; MOST_COLUMNS], tag: Tag, j: usize) -> Name
    requires { j < length (columns tag) }
    ensures { result ≡ get_or places (get_or (back tag) j 0) no_place }
{
    places[back_at(tag, j)]
}

fn fits_at(sep: u8, column: Column, text: &[u8], place: Name) -> bool
    requires { place.at + place.len ≤ length text.now }
    ensures { result ≡ piece_fits sep column (named text.now place) }
{
    piece_fits(sep, column, &text[place.at..place.at + place.len])
}

// Whether the piece of each column fits it.
pub fn fields_fit(text: &[u8], sep: u8, tag: Tag, places: [Name; MOST_COLUMNS]) -> bool
    requires { CutInto sep text.now tag places }
    ensures { result ≡ fields_fit sep (columns tag) (gathered tag (split sep (drop 4 text.now))) }
{
    for (j, column) in columns(tag).iter().enumerate() {
        if !fits_at(sep, *column, text, place_of(places, tag, j)) {
            return false;
        }
    }
    true
}

fn number_said(form: Form, text: &[u8], most: u32) -> Said
    requires { number_fits most (numeral_in form text.now) ≡ true }
    ensures { result ≡ number_said (numeral_in form text.now) }
{
    // A match: of the `n` of a closure it is not told that it is at most `most`, so that the cast fits.
    match numeral_in(form, text) {
        Some(n) => Said::Number(n as u32),
        None => Said::Missing,
    }
}

// What a piece that fits says; of text, no more than is kept.
fn said_in(sep: u8, column: Column, text: &[u8], place: Name) -> Said
    requires { (place.at + place.len ≤ length text.now)
        × (piece_fits sep column (named text.now place) ≡ true) }
    ensures { result ≡ said_in column place.at (named text.now place) }
{
    if place.len == 0 {
        return Said::Missing;
    }
    if is_number(column.form) {
        let piece = &text[place.at..place.at + place.len];
        return number_said(column.form, piece, column.most);
    }
    let len = place.len.min(column.most as usize);
    Said::Text(Name { len, ..place })
}

// The fields of a text that fits.
pub fn fill(text: &[u8], sep: u8, tag: Tag, places: [Name; MOST_COLUMNS]) -> Line
    requires { CutInto sep text.now tag places
        × (fields_fit sep (columns tag) (gathered tag (split sep (drop 4 text.now))) ≡ true) }
    ensures { result ≡ line_in sep text.now tag }
{
    let mut fields = [Said::Missing; MOST_COLUMNS];
    for (j, column) in columns(tag).iter().enumerate() {
        fields[j] = said_in(sep, *column, text, place_of(places, tag, j));
    }
    Line { tag, fields }
}
