// A message's padding, its blocks and their words, in either byte order: RFC 1321, 2, 3.1 and 3.2; FIPS 180-4, 5.1.1
// and 5.2.1.
#![tactic(auto)]

ghost use Rattle.std.specs.Prelude.{◌≡◌, ◌+◌, ◌*◌, ◌/◌, ◌%◌, ◌<◌, ◌++◌, length};
ghost use Rattle.digests.specs.Padding.{blocks, block_at};
ghost use Rattle.digests.specs.declared.Order.{Order};
ghost use Rattle.digests.specs.Words32 as spec;
ghost use Rattle.block.specs.Inside.{length_bytes, block_bytes};
ghost use Rattle.block.specs.WordLaws.{first_word};

use digests::Order;
use std::array;

// The sum and the rotation of words.
pub mod arithmetic;
// The functions on words that both standards have.
pub mod bitwise;
// Sixteen words, four at a time.
pub mod by_four;
// The words of a digest as bytes at the front of a buffer.
pub mod as_bytes;
// A hash function that takes in a message block by block.
pub mod hashing;
// What MD5 and SHA-1 keep of a message.
mod kept;

// How many blocks the padded message has.
pub fn count(m: &[u8]) -> usize
    ensures { result ≡ blocks (length m.now) }
{
    (m.len() + 8) / 64 + 1
}

// A message's length in bits, its low-order 64 bits, as eight bytes. The number is turned round and not its bytes: with `to_be_bytes` beside `to_le_bytes`
// the compiler chose byte by byte, in 220 bytes more.
fn length_bytes(order: Order, m: &[u8]) -> [u8; 8]
    ensures { result ≡ length_bytes order (length m.now) }
{
    let bits = m.len().wrapping_mul(8);
    let first_low = match order {
        Order::Little => bits,
        Order::Big => bits.swap_bytes(),
    };
    first_low.to_le_bytes()
}

// The 64 bytes of block j: the message's, the byte that ends it, zeros, and in the last block the length.
fn block_bytes(order: Order, m: &[u8], j: usize) -> [u8; 64]
    requires { j < blocks (length m.now) }
    ensures { result ≡ block_bytes order m.now j }
{
    let n = m.len();
    let at = 64 * j;
    let mut b = [0u8; 64];
    if at + 64 <= n {
        b.copy_from_slice(&m[at..at + 64]);
        return b;
    }
    if at <= n {
        b[..n - at].copy_from_slice(&m[at..]);
        b[n - at] = 128;
    }
    if j + 1 == count(m) {
        b[56..].copy_from_slice(&length_bytes(order, m));
    }
    b
}

// The word that is read in an order from x's four bytes, most significant first.
pub fn from_high(order: Order, x: u32) -> u32
    ensures { result ≡ spec.word order (x / 16777216 % 256) (x / 65536 % 256) (x / 256 % 256) (x % 256) }
{
    match order {
        Order::Big => x,
        Order::Little => x.swap_bytes(),
    }
}

// The word that four bytes are.
fn word_of(order: Order, b: [u8; 4]) -> u32
    ensures { result ≡ first_word order b }
{
    match order {
        Order::Little => u32::from_le_bytes(b),
        Order::Big => u32::from_be_bytes(b),
    }
}

// Block j of the padded message, its sixteen words. Its bytes are copied first, and the words read from them as from a
// message: so the padding and the reading of words each stand once in the compiled code. It stays a function of its own: in its
// two callers, one for each order, it took 800 bytes more, and MD5 of 4,096 bytes 5% longer.
#[inline(never)]
pub fn block(order: Order, m: &[u8], j: usize) -> [u32; 16]
    requires { j < blocks (length m.now) }
    ensures { result ≡ block_at order m.now j }
{
    let b = block_bytes(order, m, j);
    array::from_fn(|k| word_of(order, [b[4 * k], b[4 * k + 1], b[4 * k + 2], b[4 * k + 3]]))
}

// The one block of a message of eight bytes, given as two words. It has the bit after them, and ends with the length, 64 bits.
fn block_of_eight(order: Order, first: u32, second: u32) -> [u32; 16]
    ensures { result ≡ block_at order (spec.bytes4 order first ++ spec.bytes4 order second) 0 }
{
    let (bit, low, high) = match order {
        Order::Little => (128, 64, 0),
        Order::Big => (0x80000000, 0, 64),
    };
    [
        first, second, bit, 0, 0, 0, 0, 0, 0, 0, 0, 0, 0, 0, low, high,
    ]
}
