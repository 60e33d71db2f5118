// A count as a text: one to four digits without a leading zero. Document 01, 'Challenges'.
ghost use Rattle.std.specs.Prelude.{◌≡◌, true, [], ◌∷◌, ◌++◌, ◌+◌, ◌≤◌, length};
ghost use Rattle.text.specs.Kinds.{is_digit};
ghost use Rattle.text.specs.Tests.{every};
ghost use Rattle.text.specs.Digits.{number_of};
ghost use Rattle.text.specs.Put.{Put};
ghost use Rattle.text.specs.Counts.{counted_of, width_of, decimal_of};

use crate::kinds::Kind;
use crate::put::spell;
use crate::scan::run;

// What up to four digits stand for.
fn number(t: &[u8]) -> u32
    requires { (length t.now ≤ 4) × (every is_digit t.now ≡ true) }
    ensures { result ≡ number_of 10 t.now }
{
    let mut n: u32 = 0;
    for d in t {
        n = n * 10 + u32::from(d - b'0');
    }
    n
}

// A token's count, if it is one.
pub fn read_count(t: &[u8]) -> Option<u32>
    ensures { result ≡ counted_of t.now }
{
    let n = t.len();
    if n < 1 {
        return None;
    }
    if (n <= 4) & (run(t, 0, Kind::Digit) == n) & !((1 < n) & (t[0] == b'0')) {
        return Some(number(t));
    }
    None
}

// How many digits a count up to 9,999 has.
pub fn width(n: u32) -> usize
    ensures { result ≡ width_of n }
{
    match n {
        0..=9 => 1,
        10..=99 => 2,
        100..=999 => 3,
        _ => 4,
    }
}

// A count at the front of the buffer, and one byte after it.
pub fn put_count_and(buf: &mut [u8], n: u32, last: u8) -> usize
    requires { width_of n + 1 ≤ length buf.old }
    ensures { Put (decimal_of n ++ last ∷ []) buf.old buf.new result }
{
    let a = spell(buf, u64::from(n), 10, width(n));
    buf[a] = last;
    a + 1
}
