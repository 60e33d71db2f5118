// One step of the chain.
ghost use Rattle.std.specs.Prelude.{◌≡◌, ◌++◌};
ghost use Rattle.digests.specs.Hash.{hashed};
ghost use Rattle.digests.specs.Words32.{bytes4};
ghost use Rattle.password.specs.Password as spec;

use crate::fold::Folded;
use block::from_high;
use block::hashing::{HashFunction, Words, hash_eight};
use digests::Order;
use md5_hash::Md5;
use password::algorithm::Algorithm;
use sha1_hash::Sha1;

// The 8 bytes of a password as two words. From eight single bytes the compiler made shifts and masks; from the two halves it
// makes, for MD5, one reversal each.
fn words_of(order: Order, p: u64) -> (u32, u32)
    ensures { bytes4 order result.0 ++ bytes4 order result.1 ≡ spec.bytes_of p }
{
    (
        from_high(order, (p / 4294967296) as u32),
        from_high(order, (p % 4294967296) as u32),
    )
}

// The folded hash of the 8 bytes of a password.
fn hash_of<H: HashFunction>(p: u64) -> u64
where
    H::Words: Folded,
    ensures { result ≡ H.Words.folded (hashed H.Words.kept H.steps (spec.bytes_of p)) }
{
    let (first, second) = words_of(H::Words::order(), p);
    hash_eight::<H>(first, second).folded()
}

// The password one count up: the folded hash of the 8 bytes.
pub fn step(algorithm: Algorithm, p: u64) -> u64
    ensures { result ≡ spec.hash algorithm (spec.bytes_of p) }
{
    match algorithm {
        Algorithm::Md5 => hash_of::<Md5>(p),
        Algorithm::Sha1 => hash_of::<Sha1>(p),
    }
}
