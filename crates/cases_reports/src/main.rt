// Reports into a lent slice, as a transcript: document 01, Calls, Report, "fills a lent slice of row records". The
// slice has two rows, each 9/9/9=9 before the call. A line has the case, the answer, how many rows were written, and
// both rows of the slice afterwards: head, site, bin and count. Held to the file stdout.
#![tactic(auto)]

ghost use Rattle.std.specs.Prelude.{◌≡◌};
ghost use Rattle.house.specs.Report.{row_at, reported, filled};

use fixtures::standing;
use house::{House, Reported, Row, Slot};
use order::Place;
use reports::report;
use session::Session;
use std::io;
use transcript::{AnswerText, Decimal, RowText};

// A slice of two rows after a report, and what the report answered.
#[derive(Clone, Copy)]
struct Pair {
    reported: Reported,
    rows: [Row; 2],
}

// Lends both rows.
fn lend_pair(rows: [Row; 2], house: House, slot: u32) -> Pair
    ensures { (result.reported ≡ reported house slot 2)
        × (result.rows ≡ filled (row_at house slot) result.reported.rows rows) }
{
    let mut lent = rows;
    let reported = report(&mut lent, house, slot);
    Pair {
        reported,
        rows: lent,
    }
}

// An open slot in the body of its stream, with no part open.
fn open(results: u32) -> Slot {
    Slot {
        taken: true,
        floor: 0,
        session: Session {
            standing: standing(Place::Body, 0, false, results),
            parts: [0; 40],
        },
        held: 0,
    }
}

// Slot 0 holds three rows, slot 1 two, slot 2 one and slot 3 none; all others are closed. Key 16842757 is slot 0, head
// 1, site 1 and bin 5; each slot further is 4294967296 more.
fn house_of(used: usize) -> House {
    let mut h = House::fresh();
    h.keys[0] = 5;
    h.keys[1] = 16842757;
    h.keys[2] = 16842758;
    h.keys[3] = 4294967301;
    h.keys[4] = 4311810053;
    h.keys[5] = 8606777350;
    h.counts[0] = 1;
    h.counts[1] = 2;
    h.counts[2] = 3;
    h.counts[3] = 4;
    h.counts[4] = 5;
    h.counts[5] = 6;
    h.used = used;
    h.slots[0] = open(6);
    h.slots[1] = open(9);
    h.slots[2] = open(6);
    h.slots[3] = open(0);
    h
}

fn text_of(row: Row) -> RowText {
    RowText(row.head, row.site, row.bin, row.count)
}

fn line(rt: &impl Print, name: &str, h: House, slot: u32) -> io::Result<()> {
    let old = Row {
        head: 9,
        site: 9,
        bin: 9,
        count: 9,
    };
    let Pair {
        reported,
        rows: [first, second],
    } = lend_pair([old; 2], h, slot);
    println!(rt;
        "{name}: {}, rows {}: {} {}",
        AnswerText(reported.answer),
        Decimal(reported.rows as u64),
        text_of(first),
        text_of(second)
    )
}

// With five rows in use slot 2 has accepted six PRRs and holds no row: that house isn't sound.
fn main(rt: HostRuntime) -> io::Result<()> {
    let h = house_of(6);
    line(&rt, "three rows", h, 0)?;
    line(&rt, "two rows", h, 1)?;
    line(&rt, "one row", h, 2)?;
    line(&rt, "no rows", h, 3)?;
    line(&rt, "closed slot", h, 4)?;
    line(&rt, "slot 16", h, 16)?;
    line(&rt, "house not sound", house_of(5), 1)
}
