// What the calls answer.
use answers::{Answer, number};
use calls::{close_slot, figures, open_slot};
use deliveries::deliver;
use feeding::{end_feed, feed};
use house::House;
use reports::judge_report;
use std::io;
use transcript::{AnswerText, Decimal};

// An answer by its number alone.
fn numbered(answer: Answer) -> Decimal {
    Decimal(number(answer).into())
}

// The figures are told of a sound house only: of another there are none.
fn say_figures(rt: &impl Print, h: House) -> io::Result<()> {
    let f = figures(h);
    match f.answer {
        Answer::Done => println!(rt;
            ", figures {}, {} free, {} promised",
            numbered(f.answer),
            Decimal(f.free.into()),
            Decimal(f.promised.into())
        ),
        refusal => println!(rt; ", figures {}", AnswerText(refusal)),
    }
}

pub(crate) fn say_calls(rt: &impl Print, h: House) -> io::Result<()> {
    print!(rt;
        " open {}, deliver {}, report {}, close {}",
        numbered(open_slot(h, 15, 0).answer),
        numbered(deliver(h, 0, b"").answer),
        numbered(judge_report(h, 0, 1024).answer),
        numbered(close_slot(h, 0).answer)
    )?;
    say_figures(rt, h)
}

// An empty chunk fed to slot 0 over a carry of noughts, and the end of feeding there.
pub(crate) fn say_fed(rt: &impl Print, h: House) -> io::Result<()> {
    let fed = feed(h, 0, &mut [0; House::CARRY], b"");
    let ending = end_feed(h, 0);
    println!(rt;
        " feed {}, taken {}, end {}",
        numbered(fed.answer),
        Decimal(fed.taken as u64),
        numbered(ending)
    )
}

pub(crate) fn say_delivered(rt: &impl Print, h: House, rec: &[u8]) -> io::Result<()> {
    println!(rt; " {}", AnswerText(deliver(h, 0, rec).answer))
}
