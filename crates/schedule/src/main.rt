// The schedule program: plays the text on standard input and writes what is printed to standard output.
#![tactic(auto)]

use arrayvec::ArrayVec;
use runner::run::{UNIT, dohvalin_run};
use std::io;
use std::io::{Read, Write};

// One byte more than the longest text, so that a longer one shows.
const MOST_READ: usize = 8193;

const OUTPUT: usize = 65536;

fn main(rt: HostRuntime) -> io::Result<()> {
    let mut text = ArrayVec::<u8, MOST_READ>::new();
    io::copy(&mut rt.stdin().take(MOST_READ as u64), &mut text)?;
    let mut output = [0; OUTPUT];
    let answer = dohvalin_run(text.as_slice(), &mut output);
    let written = (answer / UNIT) as usize;
    if let Some(printed) = output.get(..written) {
        rt.stdout().write_all(printed)?;
    }
    Ok(())
}
