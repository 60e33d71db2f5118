// Six words packed, their length, and put into a buffer.
ghost use Rattle.std.specs.Prelude.{◌≡◌, map, ◌≤◌, length};
ghost use Rattle.std.specs.Int.{w32, from_be_bytes};
ghost use Rattle.text.specs.Put.{Put};
ghost use Rattle.dictionary.specs.Dictionary.{packed_at, letters_of};
ghost use Rattle.sixwords.specs.Places.{places_of};
ghost use Rattle.sixwords.specs.Spelling.{spaced};

use crate::places_of;
use text::put::{copy, copy_and};
use wordlist::word_at;

// The six words of a password, packed.
pub fn words_of(password: u64) -> [u32; 6]
    ensures { result ≡ map packed_at (places_of password) }
{
    places_of(password).map(word_at)
}

// The letters among the bytes of a packed word.
fn letters(bytes: &[u8; 4]) -> &[u8]
    ensures { result.now ≡ letters_of (from_be_bytes w32 bytes.now) }
{
    match bytes {
        [0, _, 0, _] => &bytes[1..2],
        [0, _, _, 0] => &bytes[1..3],
        [0, _, _, _] => &bytes[1..],
        _ => bytes,
    }
}

// How many bytes six packed words take with one space between. Counted before they are put: a buffer that is too short stays as it was.
pub fn length_of(words: [u32; 6]) -> usize
    ensures { result ≡ length (spaced (map letters_of words)) }
{
    let mut n = 0;
    for word in words {
        n += letters(&word.to_be_bytes()).len() + 1;
    }
    n - 1
}

// Six packed words with one space between at the front of the buffer.
pub fn put_words(buf: &mut [u8], words: [u32; 6]) -> usize
    requires { length (spaced (map letters_of words)) ≤ length buf.old }
    ensures { Put (spaced (map letters_of words)) buf.old buf.new result }
{
    let mut at = 0;
    for word in &words[..5] {
        at += copy_and(&mut buf[at..], letters(&word.to_be_bytes()), b' ');
    }
    at + copy(&mut buf[at..], letters(&words[5].to_be_bytes()))
}
