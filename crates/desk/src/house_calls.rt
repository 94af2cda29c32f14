// A call on the house, played, and what is written of what came back. A report is over a slice of LENGTH rows; no
// report has more than 1,024, so a longer one is as good as one of 1,024.
ghost use Rattle.std.specs.Prelude.{◌≤◌};

use crate::carries::{Carries, lent_to};
use answers::Answer;
use asked_calls::Call;
use house::House;
use plays::{Played, play};
use std::io;
use transcript::{AnswerText, Decimal, RowText};

// What a call that is done found, if it asked for something: how many rows there are, and the rows, or the figures.
fn say_found(rt: &impl Print, call: Call, done: &Played) -> io::Result<()>
    requires { done.now.count ≤ 1024 }
{
    match call {
        Call::Report(_, _) => {
            print!(rt; " {}", Decimal(done.count as u64))?;
            for row in &done.rows[..done.count] {
                print!(rt; " {}", RowText(row.head, row.site, row.bin, row.count))?;
            }
            Ok(())
        }
        Call::Figures => print!(rt;
            " {} {}",
            Decimal(done.free.into()),
            Decimal(done.promised.into())
        ),
        _ => Ok(()),
    }
}

// Of a feed it is said how many bytes of its chunk it took, too, whatever it is answered.
pub(crate) fn house_call(
    rt: &impl Print,
    house: House,
    call: Call,
    bytes: &[u8],
    carries: &mut Carries,
) -> io::Result<House> {
    let done = play(house, call, bytes, lent_to(carries, call));
    print!(rt; "{}", AnswerText(done.answer))?;
    if matches!(done.answer, Answer::Done) {
        say_found(rt, call, &done)?;
    }
    if matches!(call, Call::Feed(_, _)) {
        print!(rt; " {}", Decimal(done.taken as u64))?;
    }
    println!(rt)?;
    Ok(done.house)
}
