// From a line to its record: document 01, "Count lines", Read.
ghost use Rattle.std.specs.Prelude.{◌≡◌};
ghost use Rattle.output.specs.Placed.{outcome, placed};
ghost use Rattle.line_texts.specs.Texts.{content_means, line_meaning_by};
ghost use Rattle.lines.specs.Reading.{record_made};

use answers::Answer;
use line_laying::place;
use line_layouts::Layout;
use line_texts::contents::{ending_of, judge_content};
use numbers::Order;

fn read_content(out: &mut [u8], at: usize, order: Order, sep: u8, s: &[u8]) -> Result<usize, Answer>
    ensures { outcome result out.new
        ≡ placed (record_made order (content_means sep s.now)) out.old at }
{
    let line = judge_content(s, sep)?;
    place(out, at, Layout::Record(order), s, line)
}

pub fn read_in(
    out: &mut [u8],
    at: usize,
    order: Order,
    sep: u8,
    line: &[u8],
) -> Result<usize, Answer>
    ensures { outcome result out.new
        ≡ placed (record_made order (line_meaning_by sep line.now)) out.old at }
{
    let end = line.len() - ending_of(line);
    read_content(out, at, order, sep, &line[..end])
}
