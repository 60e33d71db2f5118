// A password written as six words. Document 01, 'Six words and hex'.
use refusal::{Refusal, Written};

mod packed;

ghost use Rattle.std.specs.Prelude.{◌≡◌, ◌≤◌, length};
ghost use Rattle.text.specs.Put.{Writes};
ghost use Rattle.sixwords.specs.Spelling.{words_of};

// How many bytes the six words of a password take: 29 at most.
pub fn words_length(password: u64) -> usize
    ensures { (result ≡ length (words_of password)) × (result ≤ 29) }
{
    packed::length_of(packed::words_of(password))
}

// The password as six words at the front of the buffer.
pub fn write_words(password: u64, buf: &mut [u8]) -> Written
    ensures { Writes (words_of password) buf.old buf.new result }
{
    let six = packed::words_of(password);
    if buf.len() < packed::length_of(six) {
        return Err(Refusal::BufferShort);
    }
    Ok(packed::put_words(buf, six))
}
