// Lines of ATDF and the records they stand for, from either one to the other: document 01, "Count lines"; #103, WIR and
// WRR.
#![tactic(auto)]

mod reading;
mod writing;

ghost use Rattle.std.specs.Prelude.{◌≡◌};
ghost use Rattle.output.specs.Placed.{outcome};
ghost use Rattle.lines.specs.Writing.{line_written};
ghost use Rattle.lines.specs.Reading.{line_read};

use answers::Answer;
use line_layouts::columns::SEPARATOR;

// Writes the line of one record, in the byte order of a CPU_TYPE, at the offset `at` of the lent output.
pub fn write_line(order: u8, record: &[u8], out: &mut [u8], at: usize) -> Result<usize, Answer>
    ensures { outcome result out.new ≡ line_written order «record».now out.old at }
{
    let order = numbers::order_of(order).ok_or(Answer::UnknownOrder)?;
    writing::write_in(out, at, order, SEPARATOR, record)
}

// Reads one line and writes its record, in the byte order of a CPU_TYPE, at the offset `at` of the lent output.
pub fn read_line(order: u8, line: &[u8], out: &mut [u8], at: usize) -> Result<usize, Answer>
    ensures { outcome result out.new ≡ line_read order line.now out.old at }
{
    let order = numbers::order_of(order).ok_or(Answer::UnknownOrder)?;
    reading::read_in(out, at, order, SEPARATOR, line)
}
