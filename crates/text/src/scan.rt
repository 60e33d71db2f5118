// What is read from a text: how far bytes of one kind go, whether two texts are the same, and what a digit stands for.
ghost use Rattle.std.specs.Prelude.{◌≡◌, ◌+◌, ◌≤◌, length, drop};
ghost use Rattle.text.specs.Digits.{digit_found};
ghost use Rattle.text.specs.Kinds.{of_kind};
ghost use Rattle.text.specs.Scan.{run_of, stretch, index_of};
ghost use Rattle.text.specs.Tests.{same as same_text};

use crate::kinds::{Kind, is_white, lower};

// Whether a byte is of that kind.
fn of_kind(kind: Kind, b: u8) -> bool
    ensures { result ≡ of_kind kind b }
{
    match kind {
        Kind::White => is_white(b),
        Kind::Solid => !is_white(b),
        Kind::Blank => matches!(b, b' ' | b'\t'),
        Kind::Token => !matches!(b, b' ' | b'\t' | b'\n'),
        Kind::Part => b != b':',
        Kind::Digit => b.is_ascii_digit(),
        Kind::Letter => b.is_ascii_alphabetic(),
        Kind::LetterOrDigit => b.is_ascii_alphanumeric(),
    }
}

// The number of bytes of that kind that stand one after the other from `at` on; 0 past the end.
pub fn run(s: &[u8], at: usize, kind: Kind) -> usize
    ensures { result ≡ run_of (of_kind kind) (drop at s.now) }
{
    let rest = &s[at.min(s.len())..];
    rest.iter().take_while(|b| of_kind(kind, **b)).count()
}

// The bytes of that kind that stand one after the other from `at` on.
pub fn stretch_at(s: &[u8], at: usize, kind: Kind) -> &[u8]
    requires { at ≤ length s.now }
    ensures { (result.now ≡ stretch (of_kind kind) s.now at) × (result.ref_ptr.0 ≡ s.entry.ref_ptr.0) × (result.ref_ptr.1 ≡ at + s.entry.ref_ptr.1) }
{
    let end = at + run(s, at, kind);
    &s[at..end]
}

// The place of the first byte `b` from `from` on; where there is none, the text's end, or `from` if that is past it.
pub fn find(s: &[u8], from: usize, b: u8) -> usize
    ensures place { result ≡ from + index_of b (drop from s.now) }
    ensures within { from ≤ length s.now → result ≤ length s.now }
{
    let rest = &s[from.min(s.len())..];
    from + rest.iter().take_while(|c| **c != b).count()
}

// Whether two texts are the same. Byte by byte: `a == b` is a call of the library's own loop in the compiled code, which is larger.
pub fn same(a: &[u8], b: &[u8]) -> bool
    ensures { result ≡ same_text a.now b.now }
{
    a.len() == b.len() && a.iter().zip(b).all(|(x, y)| x == y)
}

// What a hex digit of either case stands for, if the byte is one: a decimal digit by one range, and a letter by one, in lower case. `to_digit` takes a
// character and gives a `u32`, and is no plainer.
pub fn digit_value(b: u8) -> Option<u8>
    ensures { result ≡ digit_found b }
{
    if b.is_ascii_digit() {
        return Some(b - b'0');
    }
    match lower(b) {
        letter @ b'a'..=b'f' => Some(letter - b'a' + 10),
        _ => None,
    }
}
