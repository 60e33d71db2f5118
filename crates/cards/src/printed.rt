// What the program `card` prints for its input. Document 01, 'The card'.
ghost use Rattle.std.specs.Prelude.{◌≡◌, ◌≤◌, length};
ghost use Rattle.text.specs.Scan.{index_of};
ghost use Rattle.text.specs.Put.{Put};
ghost use Rattle.cards.specs.Printed.{first_line, kept_line, past_line, lines_asked, refused_text, printed_card, answer_of};

use crate::write_card;
use refusal::{Refusal, Written, listing_of};
use text::counts::{put_count_and, read_count};
use text::put::copy;
use text::scan::find;

// Where the first line of a text ends: at its newline, or with the text.
fn line_end(s: &[u8]) -> usize
    ensures { (result ≡ index_of 10 s.now) × (result ≤ length s.now) }
{
    find(s, 0, b'\n')
}

// The first line of a text without its newline.
fn first_line(s: &[u8]) -> &[u8]
    ensures { result.now ≡ first_line s.now }
{
    let n = line_end(s);
    &s[..n]
}

// The first line of a text with its newline, and what follows.
fn split_line(s: &[u8]) -> (&[u8], &[u8])
    ensures { (result.0.now ≡ kept_line s.now) × (result.1.now ≡ past_line s.now) }
{
    s.split_at((line_end(s) + 1).min(s.len()))
}

// The lines that the third line asks for; 0 for a line that is no such number, as the definition has it: `write_card` refuses 0 lines by the same 70.
fn lines_asked(t: &[u8]) -> u32
    ensures { result ≡ lines_asked t.now }
{
    if 2 < t.len() {
        return 0;
    }
    read_count(t).unwrap_or(0)
}

// A refusal as it is printed.
fn put_refused(buf: &mut [u8], why: Refusal) -> usize
    requires { 13 ≤ length buf.old }
    ensures { Put (refused_text why) buf.old buf.new result }
{
    let listing = listing_of(why);
    let a = copy(buf, b"refused ");
    a + put_count_and(&mut buf[a..], listing.0, b'\n')
}

// The card at the front of the buffer, or its refusal as it is printed. The buffer has room for the largest card: 99 lines of 52 bytes.
fn put_card(phrase: &[u8], challenge: &[u8], lines: u32, buf: &mut [u8; 5148]) -> usize
    ensures { Put (printed_card phrase.now challenge.now lines) buf.old buf.new result }
{
    match write_card(phrase, challenge, lines, buf) {
        Ok(n) => n,
        Err(why) => put_refused(buf, why),
    }
}

// The answer to an input at the front of the buffer.
pub fn answer(input: &[u8], buf: &mut [u8; 5148]) -> usize
    ensures { Put (answer_of input.now) buf.old buf.new result }
{
    if 256 < input.len() {
        return put_refused(buf, Refusal::InputLong);
    }
    let (_, past_phrase) = split_line(input);
    let (challenge, past_challenge) = split_line(past_phrase);
    put_card(
        first_line(input),
        challenge,
        lines_asked(first_line(past_challenge)),
        buf,
    )
}
