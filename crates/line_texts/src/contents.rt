// A line without its ending, and what it means: document 01, "Count lines", Read.
ghost use Rattle.std.specs.Prelude.{◌≡◌, not, ◌||◌, ◌≤◌, length, drop};
ghost use Rattle.line_texts.specs.Pieces.{split};
ghost use Rattle.line_layouts.specs.Columns.{tag_text, most_columns};
ghost use Rattle.line_layouts.specs.Fitting.{is_beside, agree};
ghost use Rattle.line_layouts.specs.Judging.{held_by};
ghost use Rattle.line_texts.specs.Texts.{is_break, ending, unbroken, starts, tag_of, fields_mean};
ghost use Rattle.line_texts.specs.Texts.{Sited};
ghost use Rattle.line_texts.specs.Places.{line_in, content_held};

use super::pieces::{cut, fields_fit, fill};
use answers::Answer;
use line_layouts::columns::{CARRIAGE_RETURN, LINE_FEED, TAGS, columns, tag_text};
use line_layouts::forms::is_beside;
use line_layouts::judging::is_missing;
use line_layouts::{Column, Line, Tag};

fn is_break(b: u8) -> bool
    ensures { result ≡ is_break b }
{
    matches!(b, LINE_FEED | CARRIAGE_RETURN)
}

// How many bytes end a line: CR LF, LF, CR, or none.
pub fn ending_of(line: &[u8]) -> usize
    ensures { (result ≡ ending line.now) × (result ≤ length line.now) }
{
    match line {
        [.., CARRIAGE_RETURN, LINE_FEED] => 2,
        [.., CARRIAGE_RETURN] => 1,
        [.., LINE_FEED] => 1,
        _ => 0,
    }
}

fn is_unbroken(s: &[u8]) -> bool
    ensures { result ≡ unbroken s.now }
{
    s.iter().all(|b| !is_break(*b))
}

fn is_begun(s: &[u8], tag: Tag) -> bool
    ensures { result ≡ starts (tag_text tag) s.now }
{
    s.starts_with(tag_text(tag))
}

fn tag_of(s: &[u8]) -> Option<Tag>
    ensures { result ≡ tag_of s.now }
{
    TAGS.iter().find(|tag| is_begun(s, **tag)).copied()
}

// A field beside another is missing exactly where that one is.
fn sits_at(column: Column, gone: bool, none: bool) -> bool
    ensures { result ≡ (not (is_beside column.flag) || agree gone none) }
{
    !is_beside(column.flag) || gone == none
}

fn sites_fit(line: Line) -> bool
    requires { length line.fields ≡ most_columns }
    ensures { Sited line result }
{
    let mut gone = true;
    for (j, column) in columns(line.tag).iter().enumerate() {
        let none = is_missing(line.fields[j]);
        if !sits_at(*column, gone, none) {
            return false;
        }
        gone = none;
    }
    true
}

fn judge_fields(s: &[u8], sep: u8, tag: Tag) -> Result<Line, Answer>
    requires { 4 ≤ length s.now }
    ensures { result ≡ held_by (line_in sep s.now tag)
        (fields_mean sep tag (split sep (drop 4 s.now))) }
{
    let Ok(places) = cut(s, sep, tag) else {
        return Err(Answer::NotACountLine);
    };
    if !fields_fit(s, sep, tag, places) {
        return Err(Answer::NotACountLine);
    }
    let line = fill(s, sep, tag, places);
    if !sites_fit(line) {
        return Err(Answer::NotACountLine);
    }
    Ok(line)
}

// A line without its ending, taken apart, its fields with a separator between them.
pub fn judge_content(s: &[u8], sep: u8) -> Result<Line, Answer>
    ensures { result ≡ content_held sep s.now }
{
    if !is_unbroken(s) {
        return Err(Answer::NotACountLine);
    }
    let tag = tag_of(s).ok_or(Answer::NotACountLine)?;
    judge_fields(s, sep, tag)
}
