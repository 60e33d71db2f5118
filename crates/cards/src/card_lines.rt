// One line of a card, and a card's lines one after the other. Document 01, 'The card'.
ghost use Rattle.std.specs.Prelude.{◌≡◌, [], ◌∷◌, ◌++◌, ◌+◌, ◌≤◌, length};
ghost use Rattle.text.specs.Put.{Put, Writes};
ghost use Rattle.hex_text.specs.Hex.{hex_of};
ghost use Rattle.sixwords.specs.Spelling.{words_of};
ghost use Rattle.text.specs.Counts.{width_of};
ghost use Rattle.cards.specs.Inside.{RoomAfter, PutAfter, text_of};
ghost use Rattle.cards.specs.CardLines.{line_of};

use crate::lines::Lines;
use hex_text::write_hex;
use refusal::{Refusal, Written};
use sixwords::spelling::{words_length, write_words};
use text::counts::{put_count_and, width};

// One byte after the text that a writer wrote. The writer had room for both.
fn put_after(buf: &mut [u8], answer: Written, last: u8) -> usize
    requires { RoomAfter answer buf.old }
    ensures { PutAfter answer last buf.old buf.new result }
{
    let Ok(n) = answer else {
        return 0;
    };
    buf[n] = last;
    n + 1
}

// A password in hex and in words.
fn put_password(buf: &mut [u8], p: u64) -> usize
    requires { length (words_of p) + 18 ≤ length buf.old }
    ensures { Put ((hex_of p ++ 32 ∷ []) ++ (words_of p ++ 10 ∷ [])) buf.old buf.new result }
{
    let hex = write_hex(p, buf);
    let a = put_after(buf, hex, b' ');
    let rest = &mut buf[a..];
    let words = write_words(p, rest);
    a + put_after(rest, words, b'\n')
}

// The line of a count and its password.
fn put_line(buf: &mut [u8], count: u32, p: u64) -> usize
    requires { width_of count + length (words_of p) + 19 ≤ length buf.old }
    ensures { Put (line_of count p) buf.old buf.new result }
{
    let a = put_count_and(buf, count, b' ');
    a + put_password(&mut buf[a..], p)
}

// How many bytes the lines take. Counted before they are put: a buffer that is too short stays as it was.
fn lines_length(lines: &Lines) -> usize
    ensures { result ≡ length (text_of lines.now) }
{
    let mut total = 0;
    let mut count = lines.top;
    for p in lines.passwords {
        total += width(count) + words_length(*p) + 19;
        count -= 1;
    }
    total
}

// The lines at the front of the buffer. Each is written into what remains.
fn put_lines(buf: &mut [u8], lines: &Lines) -> usize
    requires { length (text_of lines.now) ≤ length buf.old }
    ensures { Put (text_of lines.now) buf.old buf.new result }
{
    let mut at = 0;
    let mut count = lines.top;
    for p in lines.passwords {
        at += put_line(&mut buf[at..], count, *p);
        count -= 1;
    }
    at
}

// The lines, if the buffer has room for all of them.
pub fn write_lines(lines: &Lines, buf: &mut [u8]) -> Written
    ensures { Writes (text_of lines.now) buf.old buf.new result }
{
    if buf.len() < lines_length(lines) {
        return Err(Refusal::BufferShort);
    }
    Ok(put_lines(buf, lines))
}
