// Numbers in decimal, one a line: every one from 0 to 99,999, both sides of each power of ten, and the last two of eight
// bytes. #104: no text changes. What it is held to was written by other means: by seq, and of nines and noughts in a row.
#![tactic(auto)]

use std::io;
use transcript::say_number;

fn say_line(rt: &impl Print, n: u64) -> io::Result<()> {
    say_number(rt, n)?;
    println!(rt)
}

// The last number below each power of ten and the power itself, from 10 to 10,000,000,000,000,000,000.
fn say_powers(rt: &impl Print) -> io::Result<()> {
    for digits in 1..20 {
        let power = 10u64.pow(digits);
        say_line(rt, power - 1)?;
        say_line(rt, power)?;
    }
    Ok(())
}

fn main(rt: HostRuntime) -> io::Result<()> {
    for n in 0..100000 {
        say_line(&rt, n)?;
    }
    say_powers(&rt)?;
    say_line(&rt, u64::MAX - 1)?;
    say_line(&rt, u64::MAX)
}
