// Writing a challenge: single spaces, the seed in lower case, a newline. Document 01, 'Challenges'; document 02, R-6.
ghost use Rattle.std.specs.Prelude.{◌≡◌, [], ◌∷◌, ◌++◌, map, ◌+◌, ◌≤◌, length};
ghost use Rattle.text.specs.Kinds.{lower_of};
ghost use Rattle.text.specs.Put.{Put, leaves};
ghost use Rattle.text.specs.Counts.{width_of, decimal_of};
ghost use Rattle.password.specs.Algorithm.{algorithm_name};
ghost use Rattle.challenge.specs.Challenges as spec;

use crate::reading::OPENING;
use password::algorithm::{Algorithm, numbered};
use password::algorithm_names::{name_length, put_name};
use password::phrase_and_seed::{check_seed, put_lower};
use refusal::{Refusal, Written};
use text::counts::{put_count_and, width};
use text::put::copy;

// The opening, the algorithm's name and a space.
fn put_head(buf: &mut [u8], algorithm: Algorithm) -> usize
    requires { length (algorithm_name algorithm) + 5 ≤ length buf.old }
    ensures { Put (spec.opening ++ (algorithm_name algorithm ++ 32 ∷ [])) buf.old buf.new result }
{
    let a = copy(buf, &OPENING);
    a + put_name(&mut buf[a..], algorithm)
}

// How many bytes come after the seed. Counted before they are put: a buffer that is too short stays as it was.
fn ending_length(ext: bool) -> usize
    ensures { result ≡ length (spec.ending ext) }
{
    if ext { 5 } else { 1 }
}

// A newline, behind the mark where it is asked for.
fn put_ending(buf: &mut [u8], ext: bool) -> usize
    requires { length (spec.ending ext) ≤ length buf.old }
    ensures { Put (spec.ending ext) buf.old buf.new result }
{
    if ext {
        return copy(buf, b" ext\n");
    }
    copy(buf, b"\n")
}

// A seed in lower case, and what comes after it.
fn put_seed(buf: &mut [u8], seed: &[u8], ext: bool) -> usize
    requires { length seed.now + length (spec.ending ext) ≤ length buf.old }
    ensures { Put (map lower_of seed.now ++ spec.ending ext) buf.old buf.new result }
{
    let a = put_lower(buf, seed);
    a + put_ending(&mut buf[a..], ext)
}

// A count, a space, and the seed.
fn put_count_seed(buf: &mut [u8], seed: &[u8], count: u32, ext: bool) -> usize
    requires { width_of count + length seed.now + length (spec.ending ext) + 1 ≤ length buf.old }
    ensures { Put ((decimal_of count ++ 32 ∷ []) ++ (map lower_of seed.now ++ spec.ending ext)) buf.old buf.new result }
{
    let a = put_count_and(buf, count, b' ');
    a + put_seed(&mut buf[a..], seed, ext)
}

// The challenge at the front of the buffer.
fn put_challenge(buf: &mut [u8], algorithm: Algorithm, seed: &[u8], count: u32, ext: bool) -> usize
    requires { length (algorithm_name algorithm) + width_of count + length seed.now + length (spec.ending ext) + 6 ≤ length buf.old }
    ensures { Put (spec.challenge_text ext algorithm seed.now count) buf.old buf.new result }
{
    let a = put_head(buf, algorithm);
    a + put_count_seed(&mut buf[a..], seed, count, ext)
}

// The challenge for an algorithm, a seed and a count, with the mark or without, or the first fault in the order 23, 24, 13, 40.
pub fn write_by(ext: bool, algorithm: Algorithm, seed: &[u8], count: u32, buf: &mut [u8]) -> Written
    ensures answered { result ≡ spec.challenge_written_by ext algorithm seed.now count (length buf.old) }
    ensures left { buf.new ≡ leaves result (spec.challenge_text ext algorithm seed.now count) buf.old }
{
    check_seed(seed)?;
    if 9999 < count {
        return Err(Refusal::CountHigh);
    }
    if buf.len() < name_length(algorithm) + width(count) + seed.len() + ending_length(ext) + 6 {
        return Err(Refusal::BufferShort);
    }
    Ok(put_challenge(buf, algorithm, seed, count, ext))
}

// The same by the algorithm's number, 21 before the other faults, and without the mark.
pub fn write(algorithm: u32, seed: &[u8], count: u32, buf: &mut [u8]) -> Written
    ensures answered { result ≡ spec.challenge_written algorithm seed.now count (length buf.old) }
    ensures left { buf.new ≡ leaves result (spec.text_by_number algorithm seed.now count) buf.old }
{
    let known = numbered(algorithm).ok_or(Refusal::AlgorithmUnknown)?;
    write_by(false, known, seed, count, buf)
}
