// The password of a pass-phrase, a seed and a count.
#![tactic(auto)]

ghost use Rattle.std.specs.Prelude.{◌≡◌, ◌++◌, map, ◌+◌, ◌≤◌, length};
ghost use Rattle.text.specs.Kinds.{lower_of};
ghost use Rattle.text.specs.Put.{Put};
ghost use Rattle.password.specs.Password as spec;
ghost use Rattle.generator.specs.Inside.{chained};

use crate::chain::step;
use crate::fold::Folded;
use password::algorithm::{Algorithm, numbered};
use password::phrase_and_seed::{check_phrase, check_seed};
use refusal::{Reading, Refusal};

// The fold of a digest.
mod fold;
// One step of the chain.
pub mod chain;

// The folded hash of a message. It chooses by the algorithm as `step` does for eight bytes: one function for both would be generic over
// the message too, and no shorter.
fn hash(algorithm: Algorithm, m: &[u8]) -> u64
    ensures { result ≡ spec.hash algorithm m.now }
{
    match algorithm {
        Algorithm::Md5 => md5_hash::compress::registers(m).folded(),
        Algorithm::Sha1 => sha1_hash::compress::hash_value(m).folded(),
    }
}

// What is hashed at count 0: the seed in lower case, followed by the pass-phrase. A lent buffer and a length, as with every writer of
// `text`: memory is fixed.
fn put_message(buf: &mut [u8], phrase: &[u8], seed: &[u8]) -> usize
    requires { length seed.now + length phrase.now ≤ length buf.old }
    ensures { Put (map lower_of seed.now ++ phrase.now) buf.old buf.new result }
{
    let a = password::phrase_and_seed::put_lower(buf, seed);
    a + text::put::copy(&mut buf[a..], phrase)
}

// The password at count 0. The longest message is 16 bytes and 63.
fn first(algorithm: Algorithm, phrase: &[u8], seed: &[u8]) -> u64
    requires { (length phrase.now ≤ 63) × (length seed.now ≤ 16) }
    ensures { result ≡ spec.password algorithm phrase.now seed.now 0 }
{
    let mut m = [0u8; 79];
    let n = put_message(&mut m, phrase, seed);
    hash(algorithm, &m[..n])
}

// The password n counts up from p.
fn steps(algorithm: Algorithm, p: u64, n: u32) -> u64
    ensures { result ≡ chained algorithm n p }
{
    let mut x = p;
    for _ in 0..n {
        x = step(algorithm, x);
    }
    x
}

// The password of a pass-phrase, a seed and a count, or the first fault in the order 10, 11, 23, 24, 13.
pub fn generate_by(algorithm: Algorithm, phrase: &[u8], seed: &[u8], count: u32) -> Reading
    ensures { result ≡ spec.generated_by algorithm phrase.now seed.now count }
{
    check_phrase(phrase)?;
    check_seed(seed)?;
    if 9999 < count {
        return Err(Refusal::CountHigh);
    }
    Ok(steps(algorithm, first(algorithm, phrase, seed), count))
}

// The same by the algorithm's number: 21 before the other faults.
pub fn generate(algorithm: u32, phrase: &[u8], seed: &[u8], count: u32) -> Reading
    ensures { result ≡ spec.generated algorithm phrase.now seed.now count }
{
    let known = numbered(algorithm).ok_or(Refusal::AlgorithmUnknown)?;
    generate_by(known, phrase, seed, count)
}
