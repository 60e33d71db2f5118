// Answers on standard output.
use crate::lending::is_untouched;
use extended::reply_texts::{ReplyText, seed_part};
use refusal::{Checked, Listing, Refusal, Written, listing_of};
use std::{fmt, io};

const DIGITS: [u8; 16] = *b"0123456789abcdef";

// Bytes in hex; `-` where there are none.
#[derive(Clone, Copy)]
pub struct Hex<'a>(pub &'a [u8]);

// Up to 64 bytes, by one write: `{b:02x}` would be a format and a write for each. Digits are text, so `unwrap_or` never meets an error.
fn put_some<W: fmt::Write>(f: &mut fmt::Formatter<W>, bytes: &[u8]) -> fmt::Result {
    let mut digits = [0u8; 128];
    for (two, b) in digits.chunks_mut(2).zip(bytes) {
        two.copy_from_slice(&[DIGITS[usize::from(*b / 16)], DIGITS[usize::from(*b % 16)]]);
    }
    let shown = &digits[..(2 * bytes.len()).min(128)];
    f.write_str(str::from_utf8(shown).unwrap_or(""))
}

impl fmt::Display for Hex<'_> {
    fn fmt<W: fmt::Write>(&self, f: &mut fmt::Formatter<W>) -> fmt::Result {
        if self.0.is_empty() {
            return write!(f, "-");
        }
        for some in self.0.chunks(64) {
            put_some(f, some)?;
        }
        Ok(())
    }
}

// A password as sixteen hex digits.
#[derive(Clone, Copy)]
pub struct Password(pub u64);

impl fmt::Display for Password {
    fn fmt<W: fmt::Write>(&self, f: &mut fmt::Formatter<W>) -> fmt::Result {
        write!(f, "{:016x}", self.0)
    }
}

// What a text says.
#[derive(Clone, Copy)]
pub struct Said<'a> {
    pub read: ReplyText,
    pub text: &'a [u8],
}

impl fmt::Display for Said<'_> {
    fn fmt<W: fmt::Write>(&self, f: &mut fmt::Formatter<W>) -> fmt::Result {
        match self.read {
            ReplyText::Login(p) => write!(f, "pw {p:016x}"),
            ReplyText::Renewal {
                algorithm,
                count,
                start,
                len,
                new,
                present,
            } => {
                let seed = Hex(seed_part(self.text, start, len));
                write!(
                    f,
                    "init {algorithm} {count} {seed} {new:016x} {present:016x}"
                )
            }
        }
    }
}

// `no` and the paper's number; with 31 its marks, `0` or `1` for each word, the first first.
#[derive(Clone, Copy)]
pub struct No(pub Refusal);

impl fmt::Display for No {
    fn fmt<W: fmt::Write>(&self, f: &mut fmt::Formatter<W>) -> fmt::Result {
        let Listing(number, marks) = listing_of(self.0);
        write!(f, "no {number}")?;
        if marks != 0 {
            write!(f, " {:06b}", marks.reverse_bits() >> 26)?;
        }
        Ok(())
    }
}

// Whether what lies past a writer's text was touched.
fn mark(rest: &[u8]) -> &'static str {
    if is_untouched(rest) { "clean" } else { "dirty" }
}

pub fn bad(to: io::Stdout) -> io::Result<()> {
    println!(to; "bad")
}

pub fn ok(to: io::Stdout) -> io::Result<()> {
    println!(to; "ok")
}

// A refusal as the whole answer.
pub fn refused(to: io::Stdout, why: Refusal) -> io::Result<()> {
    println!(to; "{}", No(why))
}

pub fn checked(to: io::Stdout, res: Checked) -> io::Result<()> {
    match res {
        Ok(()) => ok(to),
        Err(why) => refused(to, why),
    }
}

// What a call hands on, or why it doesn't.
pub fn replied<D: fmt::Display + Drop>(to: io::Stdout, res: Result<D, Refusal>) -> io::Result<()> {
    match res {
        Ok(value) => println!(to; "ok {value}"),
        Err(why) => refused(to, why),
    }
}

// What a writer wrote: the first n bytes of the buffer. No writer says that it wrote more than it was lent.
fn wrote(to: io::Stdout, n: usize, buf: &[u8]) -> io::Result<()> {
    match buf.split_at_checked(n) {
        Some((text, rest)) => println!(to; "ok {n} {} {}", Hex(text), mark(rest)),
        None => println!(to; "ok {n} - dirty"),
    }
}

// What a writer answered, and what it left in the buffer.
pub fn written(to: io::Stdout, res: Written, buf: &[u8]) -> io::Result<()> {
    match res {
        Ok(n) => wrote(to, n, buf),
        Err(why) => println!(to; "{} {}", No(why), mark(buf)),
    }
}
