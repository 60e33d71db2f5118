// Reads a pass-phrase, a challenge and a number of lines from standard input, and prints the card or why there is none.
#![tactic(auto)]

use std::io;
use std::io::Read;

fn main(rt: HostRuntime) -> io::Result<()> {
    // One byte more than an input may have: 12 tells the longer ones. No Vec: a heap's functions of C would be assumed too.
    let mut input = [0u8; 257];
    let mut room = &mut input[..];
    let n = io::copy(&mut rt.stdin().take(257), &mut room)?;
    let mut output = [0u8; 5148];
    let m = cards::printed::answer(&input[..(n as usize).min(257)], &mut output);
    rt.write_all(&output[..m])
}
