// The report of a slot: document 01, Calls, Report. It is judged, its rows are laid one after the other into an array,
// and `report` writes them into a lent slice.
#![tactic(auto)]

ghost use Rattle.std.specs.Prelude.{◌≡◌, ◌≤◌, ◌<◌, length};
ghost use Rattle.house.specs.Deliver.{past_counts};
ghost use Rattle.prelude.specs.Checks.{checked};
ghost use Rattle.rows.specs.Rows.{held_by};
ghost use Rattle.house.specs.House.{keys_of};
ghost use Rattle.house.specs.Report.{keyed_row, row_at, rows_of, rows_from, report_checks, reported, filled, no_rows};
ghost use Rattle.house.specs.Report.{listing};

use answers::Answer;
use house::{House, Listing, Reported, Row};
use rows::{held_by, slot_rank};
use soundness::open_at;

// How many rows a report of a slot has, where `long` is the room for them.
fn count_rows(house: &House, slot: u32, long: usize) -> Result<usize, Answer>
    ensures { result ≡ checked Err (report_checks house.now slot long) (Ok (held_by slot (keys_of house.now))) }
{
    let (i, _) = open_at(house, slot)?;
    let n = held_by(&house.keys, house.used, i);
    if long < n {
        return Err(Answer::OutputTooShort);
    }
    Ok(n)
}

// What a report of a slot is answered, and how many rows it has, where `long` is the room for them.
pub fn judge_report(house: House, slot: u32, long: usize) -> Reported
    ensures { result ≡ reported house slot long }
{
    match count_rows(&house, slot, long) {
        Ok(rows) => Reported {
            answer: Answer::Done,
            rows,
        },
        Err(answer) => Reported { answer, rows: 0 },
    }
}

// Where the rows of a report stand among all rows. A report of no rows has no place, and none is looked for: its house
// may be out of order.
fn first_row(house: House, slot: u32, rows: usize) -> usize
    requires { rows ≤ rows_of house slot }
    ensures { result ≡ rows_from house slot rows }
{
    if rows == 0 {
        return 0;
    }
    slot_rank(&house.keys, house.used, slot as usize)
}

// A row of a report. It is given its two numbers and not the house they stand in: a house is 21 KB, and is not copied
// for each row. The count of a row in a sound house fits: it is part of the slot's sum, the number of its PRRs.
fn keyed_row(key: u64, count: u64) -> Row
    requires { count < past_counts }
    ensures { result ≡ keyed_row key count }
{
    Row {
        head: (key / 16777216 % 256) as u8,
        site: (key / 65536 % 256) as u8,
        bin: (key % 65536) as u16,
        count: count as u32,
    }
}

// Rows that say nothing: what stands where a report has laid none.
pub fn no_rows() -> [Row; House::ROWS]
    ensures { result ≡ no_rows }
{
    let row = Row {
        head: 0,
        site: 0,
        bin: 0,
        count: 0,
    };
    [row; House::ROWS]
}

// A report by value, as a slice of `long` rows gets it. There is no branch: a refusal has no row to lay.
pub fn list_rows(house: House, slot: u32, long: usize) -> Listing
    ensures { result ≡ listing house slot long }
{
    let reported = judge_report(house, slot, long);
    let n = reported.rows;
    let from = first_row(house, slot, n);
    let mut rows = no_rows();
    for i in 0..n {
        let at = from + i;
        rows[i] = keyed_row(house.keys[at], house.counts[at]);
    }
    Listing { reported, rows }
}

// Reports a slot into a lent slice: it only copies what is listed.
pub fn report(out: &mut [Row], house: House, slot: u32) -> Reported
    ensures { (result ≡ reported house slot (length out.old))
        × (out.new ≡ filled (row_at house slot) result.rows out.old) }
{
    let list = list_rows(house, slot, out.len());
    let n = list.reported.rows;
    let rows: &[Row] = &list.rows;
    out[..n].copy_from_slice(&rows[..n]);
    list.reported
}
