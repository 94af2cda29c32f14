// Every line of an input, one after another.
use crate::{Found, begin, next_line};
use std::io;
use std::io::Read;

// Gives each line to `take`, up to the input's end or an error. A proved loop has to end, and nothing says that the input
// does: the turns are a number that no run uses up.
pub fn each_line<F: FnMut(Found, &mut [u8]) -> io::Result<()>>(
    stdin: &mut impl Read,
    line: &mut [u8],
    mut take: F,
) -> io::Result<()>
    requires { F.IsAlwaysCallable take }
{
    let mut chunk = [0u8; 65536];
    let mut input = begin();
    for _ in 0..u64::MAX {
        let next = next_line(stdin, input, &mut chunk, line);
        if matches!(next.found, Found::End) {
            return Ok(());
        }
        take(next.found, &mut line[..next.long])?;
        input = next.input;
    }
    Ok(())
}
