// The tokens of a reply as packed words of the dictionary.
ghost use Rattle.std.specs.Prelude.{◌≡◌, ◌≤◌, ◌<◌, ◌*◌, ◌-◌, ◌^◌};
ghost use Rattle.text.specs.Scan.{tokens};
ghost use Rattle.reply.specs.Inside.{word_of, six_of};

use text::kinds::{Kind, is_letter, lower};
use text::scan::run;

// The packed words of a text of six tokens of one to four letters each, if it is one.
pub fn six_words(s: &[u8]) -> Option<[u32; 6]>
    ensures { result ≡ six_of (tokens s.now) }
{
    let mut words = [0u32; 6];
    let mut at = 0;
    for word in words.iter_mut() {
        let from = at + run(s, at, Kind::White);
        at = from + run(s, from, Kind::Solid);
        *word = word_of(&s[from..at])?;
    }
    if at + run(s, at, Kind::White) < s.len() {
        return None;
    }
    Some(words)
}

// A token's letters packed, in upper case; none where it isn't one to four letters.
fn word_of(t: &[u8]) -> Option<u32>
    ensures { result ≡ word_of t.now }
{
    let n = t.len();
    if n == 0 {
        return None;
    }
    if 4 < n {
        return None;
    }
    let mut letters: u32 = 0;
    for b in t {
        if !is_letter(*b) {
            return None;
        }
        letters = letters * 256 + (lower(*b) - 32) as u32; // a letter, so its upper case
    }
    Some(filled(letters, n))
}

// n letters filled up with zeros to three.
fn filled(letters: u32, n: usize) -> u32
    requires { (0 < n) × (n ≤ 4) × (letters < 256 ^ n) }
    ensures { result ≡ letters * 256 ^ (3 - n) }
{
    match n {
        1 => letters * 65536,
        2 => letters * 256,
        _ => letters,
    }
}
