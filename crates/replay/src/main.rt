// Answers replay lines: a call a line on standard input, an answer a line on standard output. All of the input is
// read before the first call. An input of more than 1 MiB is answered by one line, `bad`, and none of its calls is run.
#![tactic(auto)]

use names::{Call, call_in};
use std::io;
use std::io::Read;
use table_calls::Controller;

// The calls by name.
mod names;
// The table on a line.
mod dump;
// What a writer is lent.
mod lending;
// What a word says.
mod word_values;
// Answers.
mod printing;
// The calls on the table.
mod table_calls;
// The calls that need no table.
mod text_calls;
// The words of a line.
mod script_words;

// Answers a line. An empty one is passed over, and a comment.
fn answer(to: io::Stdout, line: &mut [u8], controller: &mut Controller) -> io::Result<()> {
    if matches!(line, [] | [b'#', ..]) {
        return Ok(());
    }
    match call_in(line) {
        Some(Call::Text(call)) => text_calls::answer(to, call),
        Some(Call::Table(call)) => controller.answer(to, call),
        None => printing::bad(to),
    }
}

// Answers each line in turn. The last one may lack its newline.
fn answer_all(to: io::Stdout, input: &mut [u8]) -> io::Result<()> {
    let mut controller = Controller::new();
    for line in input.split_mut(|b| *b == b'\n') {
        answer(to, line, &mut controller)?;
    }
    Ok(())
}

// Reads all of standard input into the buffer, which has one byte more than an input may have, and answers it.
fn answer_input(rt: HostRuntime, buf: &mut [u8; 1048577]) -> io::Result<()> {
    let mut room = &mut buf[..];
    let n = io::copy(&mut rt.stdin().take(1048577), &mut room)?;
    let to = rt.stdout();
    if 1048576 < n {
        return printing::bad(to);
    }
    answer_all(to, &mut buf[..n as usize])
}

fn main(rt: HostRuntime) -> io::Result<()> {
    // No Vec: a heap's functions of C would be assumed too.
    let mut buf = [0u8; 1048577];
    answer_input(rt, &mut buf)
}
