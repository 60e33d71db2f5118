// A hash function that takes in a message block by block, as RFC 1321, 3.3 to 3.5, and FIPS 180-4, 5.3.1 and 6.1.2, have it: over
// what it keeps of a message, and over the steps that a block's words take.
ghost use Rattle.std.specs.Prelude.{ℕ, List, ◌≡◌, ◌++◌, ◌≤◌, length};
ghost use Rattle.text.specs.Put.{Put, leaves};
ghost use Rattle.digests.specs.Words32.{bytes4};
ghost use Rattle.digests.specs.Hash as spec;
ghost use Rattle.block.specs.Digest.{digest_of};

use digests::Order;
use refusal::{Refusal, Written};

// What is kept of the blocks that have been taken in: MD5's registers, SHA-1's hash value.
pub trait Words: Copy {
    ghost kept: { spec.Kept Self };

    ghost SIZE: { ℕ };

    // How many bytes the digest has.
    const SIZE: usize;

    fn order() -> Order
        ensures { result ≡ kept.order };

    fn initial() -> Self
        ensures { result ≡ kept.initial };

    // Each word, and the one in its place from before the block, summed.
    fn summed(self, before: Self) -> Self
        ensures { result ≡ kept.summed self before };

    // The digest at the front of the buffer.
    fn put(self, buf: &mut [u8]) -> usize
        requires { SIZE ≤ length buf.old }
        ensures { Put (kept.output self) buf.old buf.new result };

    ghost long: { (h : Self) → length (kept.output h) ≡ SIZE };
}

// A hash function, by the steps of a block: MD5's rounds, SHA-1's eighty steps.
pub trait HashFunction {
    type Words: Words;

    // What the steps are lent by the functions below, as MD5's constants.
    type Lent: Drop;

    ghost steps: { List ℕ → Self.Words → Self.Words };

    ghost loan: { Self.Lent };

    fn lent() -> Self::Lent
        ensures { result ≡ loan };

    // The words h with a block taken in: the steps, and the sum. Here, and not in a function over the steps: that was compiled once for
    // each crate that called it, and the words then went through memory before the sum.
    fn compress(w: &[u32; 16], h: Self::Words, lent: &Self::Lent) -> Self::Words
        ensures { result ≡ spec.taken_in Self.Words.kept steps w.now h };
}

// The words after the whole message.
pub fn hash<H: HashFunction>(m: &[u8]) -> H::Words
    ensures { result ≡ spec.hashed H.Words.kept H.steps m.now }
{
    let lent = H::lent();
    let mut h = H::Words::initial();
    for j in 0..crate::count(m) {
        h = H::compress(&crate::block(H::Words::order(), m, j), h, &lent);
    }
    h
}

// The words after a message of eight bytes, given as two words.
pub fn hash_eight<H: HashFunction>(first: u32, second: u32) -> H::Words
    ensures { result ≡ spec.hashed H.Words.kept H.steps (bytes4 H.Words.kept.order first ++ bytes4 H.Words.kept.order second) }
{
    let lent = H::lent();
    let w = crate::block_of_eight(H::Words::order(), first, second);
    H::compress(&w, H::Words::initial(), &lent)
}

// The digest of a message of at most 4,096 bytes, at the front of the buffer.
pub fn digest<H: HashFunction>(m: &[u8], buf: &mut [u8]) -> Written
    ensures answered { result ≡ digest_of (spec.digest H.Words.kept H.steps) m.now (length buf.old) }
    ensures left { buf.new ≡ leaves result (spec.digest H.Words.kept H.steps m.now) buf.old }
{
    if 4096 < m.len() {
        return Err(Refusal::InputLong);
    }
    if buf.len() < H::Words::SIZE {
        return Err(Refusal::BufferShort);
    }
    Ok(hash::<H>(m).put(buf))
}
