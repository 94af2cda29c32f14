// From a record to its line: document 01, "Count lines", Written; #103, 21.
ghost use Rattle.std.specs.Prelude.{◌≡◌, length};
ghost use Rattle.prelude.specs.Each.{each};
ghost use Rattle.output.specs.Placed.{outcome, placed};
ghost use Rattle.line_layouts.specs.Columns.{most_columns};
ghost use Rattle.line_layouts.specs.Entries.{entry_of, entries_of, meaning_of, Within, AllWithin};
ghost use Rattle.line_layouts.specs.Judging.{Says};
ghost use Rattle.line_records.specs.Records.{meaning};
ghost use Rattle.line_layouts.specs.Names.{entry_allowed};
ghost use Rattle.lines.specs.Writing.{text_made, said_given, Gives};

use answers::Answer;
use line_laying::place;
use line_layouts::columns::{column_count, columns};
use line_layouts::judging::is_missing;
use line_layouts::names::part_allowed;
use line_layouts::{Column, Layout, Line, Said};
use line_records::judge_record;
use numbers::Order;

// A field that text must give can be missing in a record: a time of 0.
fn said_given(column: Column, said: Said) -> bool
    ensures { result ≡ said_given column said }
{
    !(column.required && is_missing(said))
}

fn line_given(line: Line) -> bool
    requires { length line.fields ≡ most_columns }
    ensures { Gives line result }
{
    for (j, column) in columns(line.tag).iter().enumerate() {
        if !said_given(*column, line.fields[j]) {
            return false;
        }
    }
    true
}

fn said_allowed(sep: u8, source: &[u8], said: Said) -> bool
    requires { Within source.now said }
    ensures { result ≡ entry_allowed sep (entry_of source.now said) }
{
    match said {
        Said::Missing | Said::Number(_) => true,
        Said::Text(name) => part_allowed(sep, &source[name.at..name.at + name.len]),
    }
}

fn line_allowed(sep: u8, source: &[u8], line: Line) -> bool
    requires { AllWithin source.now line }
    ensures { result ≡ each (entry_allowed sep) (entries_of source.now line) }
{
    for j in 0..column_count(line.tag) {
        if !said_allowed(sep, source, line.fields[j]) {
            return false;
        }
    }
    true
}

fn write_said(
    out: &mut [u8],
    at: usize,
    sep: u8,
    source: &[u8],
    line: Line,
) -> Result<usize, Answer>
    requires { AllWithin source.now line }
    ensures { outcome result out.new
        ≡ placed (text_made sep (Says (meaning_of source.now line))) out.old at }
{
    if !line_given(line) {
        return Err(Answer::NoTime);
    }
    if !line_allowed(sep, source, line) {
        return Err(Answer::NameNotText);
    }
    place(out, at, Layout::Text(sep), source, line)
}

pub fn write_in(
    out: &mut [u8],
    at: usize,
    order: Order,
    sep: u8,
    record: &[u8],
) -> Result<usize, Answer>
    ensures { outcome result out.new
        ≡ placed (text_made sep (meaning order «record».now)) out.old at }
{
    let line = judge_record(order, record)?;
    write_said(out, at, sep, &record[4..], line)
}
