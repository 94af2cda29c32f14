// A record taken apart that has a line: document 01, "Record frame and kinds", PCR, HBR and SBR, and orders of checks,
// 3, 6, 7; #103, WIR and WRR.
#![tactic(auto)]

mod walking;

ghost use Rattle.std.specs.Prelude.{◌≡◌};
ghost use Rattle.line_records.specs.Records.{count_tag};
ghost use Rattle.line_records.specs.Laws.{JudgePromise};

use answers::Answer;
use kinds::Kind;
use line_layouts::{Line, Tag};
use numbers::Order;

fn count_tag(kind: Kind) -> Option<Tag>
    ensures { result ≡ count_tag kind }
{
    match kind {
        Kind::Pcr => Some(Tag::Pcr),
        Kind::Hbr => Some(Tag::Hbr),
        Kind::Sbr => Some(Tag::Sbr),
        Kind::Wir => Some(Tag::Wir),
        Kind::Wrr => Some(Tag::Wrr),
        _ => None,
    }
}

// A record taken apart, its text told by places in its body.
pub fn judge_record(order: Order, record: &[u8]) -> Result<Line, Answer>
    ensures { JudgePromise order «record».now result }
{
    if !frames::is_record(order, record) {
        return Err(Answer::NotOneRecord);
    }
    let tag = count_tag(kinds::kind_of(record[2], record[3])).ok_or(Answer::UnknownKind)?;
    walking::walk(order, tag, &record[4..])
}
