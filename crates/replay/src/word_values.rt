// What a word says: the number of its digits, or its bytes.
ghost use Rattle.std.specs.Prelude.{◌≡◌, ◌%◌, ◌≤◌, ◌<◌, SomeIff, length};
ghost use Rattle.std.specs.Option.{option_map, option_copied};
ghost use Rattle.replay.specs.ReplayWords.{digit_in, number_in, password_in, pairs_in, text_in, of_type, held_to};
ghost use Rattle.extended.specs.ReplyTypes.{typed};

use extended::reply_writer::type_number;
use text::kinds::lower;
use text::scan::digit_value;

// What a digit of that base stands for, letters in lower case.
#[tactic(auto, using(text::specs::DigitLaws::found_or))]
fn digit(b: u8, base: u64) -> Option<u64>
    requires { base ≤ 16 }
    ensures { SomeIff result (digit_in b < base) (digit_in b) }
{
    let d = u64::from(digit_value(b).unwrap_or(16));
    (lower(b) == b && d < base).then_some(d)
}

// The number of the word's digits in that base, if it is at most `most`. Zeros may lead.
#[tactic(auto, using(crate::proofs::WordsScanned::number_laws))]
fn number_in(word: &[u8], base: u64, most: u64) -> Option<u64>
    requires { (1 < base) × (base ≤ 16) }
    ensures { result ≡ number_in base most word.now }
{
    if word.is_empty() {
        return None;
    }
    let mut n: u64 = 0;
    for b in word {
        let d = digit(*b, base)?;
        n = n.checked_mul(base)?.checked_add(d)?;
        if most < n {
            return None;
        }
    }
    Some(n)
}

// Sixteen hex digits.
pub fn password_in(word: &[u8]) -> Option<u64>
    ensures { result ≡ password_in word.now }
{
    if word.len() != 16 {
        return None;
    }
    number_in(word, 16, u64::MAX)
}

// An algorithm's number, of which two are one's.
#[tactic(auto, using(crate::proofs::WordsScanned::at_most))]
pub fn algorithm_in(word: &[u8]) -> Option<u32>
    ensures { result ≡ number_in 10 255 word.now }
{
    u32::try_from(number_in(word, 10, 255)?).ok()
}

// An id, a count, a number of lines.
#[tactic(auto, using(crate::proofs::WordsScanned::at_most))]
pub fn short_in(word: &[u8]) -> Option<u16>
    ensures { result ≡ number_in 10 65535 word.now }
{
    u16::try_from(number_in(word, 10, 65535)?).ok()
}

// A port; those over 255 are refused as 255 is.
pub fn port_in(word: &[u8]) -> Option<u8>
    ensures { result ≡ option_map (held_to 255) (number_in 10 65535 word.now) }
{
    Some(u8::try_from(short_in(word)?).unwrap_or(255))
}

// How many bytes a writer is lent.
pub fn room_in(word: &[u8]) -> Option<usize>
    ensures { result ≡ number_in 10 8192 word.now }
{
    usize::try_from(number_in(word, 10, 8192)?).ok()
}

pub fn ticks_in(word: &[u8]) -> Option<u64>
    ensures { result ≡ number_in 10 100000 word.now }
{
    number_in(word, 10, 100000)
}

// The number of the type of an extended reply with that name. The writer takes it so; 0 is its word for none.
pub fn type_in(word: &[u8]) -> Option<u32>
    ensures { result ≡ of_type (typed word.now) }
{
    match type_number(word) {
        0 => None,
        number => Some(number),
    }
}

// The bytes that the word's pairs of hex digits stand for, put at the word's front.
#[tactic(auto, using(crate::proofs::Paired::pair_laws))]
fn pairs(word: &mut [u8]) -> Option<&[u8]>
    requires { length word.old % 2 ≡ 0 }
    ensures { option_copied result ≡ pairs_in word.old }
{
    let n = word.len() / 2;
    // By index, since bytes are put where digits have been read.
    for i in 0..n {
        let high = digit(word[2 * i], 16)?;
        let low = digit(word[2 * i + 1], 16)?;
        word[i] = (high * 16 + low) as u8;
    }
    Some(&word[..n])
}

// The bytes of a text, put at the word's front: pairs of hex digits, or `-` for none.
#[tactic(auto, using(crate::proofs::Paired::text_laws))]
pub fn text_in(word: &mut [u8]) -> Option<&[u8]>
    ensures { option_copied result ≡ text_in word.old }
{
    if word.is_empty() {
        return None;
    }
    if word.len() % 2 == 0 {
        return pairs(word);
    }
    if word.len() == 1 && word[0] == b'-' {
        return Some(&word[..0]);
    }
    None
}
