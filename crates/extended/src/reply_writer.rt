// An extended reply written: the type, a colon and the password; for `init` types the present password, algorithm, count and seed, and the new password.
ghost use Rattle.std.specs.Prelude.{◌≡◌, ◌≤◌, length};
ghost use Rattle.text.specs.Put.{Put, Writes, leaves};
ghost use Rattle.extended.specs.ReplyTypes.{typed, typed_number};
ghost use Rattle.extended.specs.ReplyWriting as spec;
ghost use Rattle.extended.specs.Inside.{text_of};

use crate::renewal::Renewal;
use crate::reply_types::{ReplyType, read_type, type_numbered};
use accounts::values::check_new;
use hex_text::write_hex;
use password::algorithm::{Algorithm, algorithm_in};
use password::algorithm_names::put_name;
use refusal::{Refusal, Written};
use sixwords::spelling::write_words;
use text::counts::put_count_and;
use text::put::{copy, copy_and};

// The number of the type with that name, in lower case and whole, for who has the name and is to call `write`; 0 where there is none, since C takes a number.
pub fn type_number(name: &[u8]) -> u32
    ensures { result ≡ typed_number (typed name.now) }
{
    match read_type(name) {
        Some(kind) => kind.number(),
        None => 0,
    }
}

// A password as its type has it: six words take 29 bytes at most.
fn put_password(buf: &mut [u8], kind: ReplyType, password: u64) -> usize
    requires { 29 ≤ length buf.old }
    ensures { Put (spec.password_text kind password) buf.old buf.new result }
{
    let written = if kind.is_hex() {
        write_hex(password, buf)
    } else {
        write_words(password, buf)
    };
    let Ok(n) = written else {
        return 0;
    };
    n
}

// The type's name, a colon and the present password: 39 bytes at most.
fn put_login(buf: &mut [u8], kind: ReplyType, password: u64) -> usize
    requires { 39 ≤ length buf.old }
    ensures { Put (spec.login_text kind password) buf.old buf.new result }
{
    let a = copy_and(buf, kind.name(), b':');
    a + put_password(&mut buf[a..], kind, password)
}

// A colon, algorithm, count and seed, a colon and the new password: 57 bytes at most.
fn put_tail(buf: &mut [u8], kind: ReplyType, renewal: &Renewal) -> usize
    requires { 57 ≤ length buf.old }
    ensures { Put (spec.tail_text kind renewal.now.algorithm renewal.now.count renewal.now.seed.now renewal.now.new) buf.old buf.new result }
{
    let a = copy(buf, b":");
    let b = a + put_name(&mut buf[a..], renewal.algorithm);
    let c = b + put_count_and(&mut buf[b..], renewal.count, b' ');
    let d = c + copy_and(&mut buf[c..], renewal.seed, b':');
    d + put_password(&mut buf[d..], kind, renewal.new)
}

// The whole text: the longest has 39 bytes for a login and 57 behind it.
fn put_text(buf: &mut [u8; 96], kind: ReplyType, password: u64, renewal: Option<Renewal>) -> usize
    ensures { Put (text_of kind password renewal.entry) buf.old buf.new result }
{
    let a = put_login(buf, kind, password);
    let Some(new) = renewal else {
        return a;
    };
    a + put_tail(&mut buf[a..], kind, &new)
}

// The text, or 40.
fn write_text(kind: ReplyType, password: u64, renewal: Option<Renewal>, buf: &mut [u8]) -> Written
    ensures { Writes (text_of kind password renewal.entry) buf.old buf.new result }
{
    let mut text = [0u8; 96];
    let n = put_text(&mut text, kind, password, renewal);
    if buf.len() < n {
        return Err(Refusal::BufferShort);
    }
    Ok(copy(buf, &text[..n]))
}

// The extended reply of that type, or the first fault in the order 34, for `init` types 51, 21, 23, 24, then 40. For the others nothing is looked at but the
// present password. C hands type and values over as they are here, each for itself.
pub fn write(
    kind: u32,
    password: u64,
    algorithm: u32,
    count: u32,
    seed: &[u8],
    new: u64,
    buf: &mut [u8],
) -> Written
    ensures answered { result ≡ spec.extended_written kind password algorithm count seed.now new (length buf.old) }
    ensures left { buf.new ≡ leaves result (spec.text_by_numbers kind password algorithm count seed.now new) buf.old }
{
    let known = type_numbered(kind).ok_or(Refusal::TypeUnknown)?;
    if !known.is_init() {
        return write_text(known, password, None, buf);
    }
    check_new(algorithm, count, seed)?;
    let renewal = Renewal {
        algorithm: algorithm_in(algorithm),
        count,
        seed,
        new,
    };
    write_text(known, password, Some(renewal), buf)
}
