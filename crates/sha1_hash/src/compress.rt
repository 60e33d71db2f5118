// FIPS 180-4, 5.3.1 and 6.1.2: the hash value after a message.
ghost use Rattle.std.specs.Prelude.{◌≡◌, ◌++◌};
ghost use Rattle.digests.specs.declared.Order.{Order};
ghost use Rattle.digests.specs.Words32.{bytes4};
ghost use Rattle.digests.specs.Sha1 as spec;

use crate::eighty_steps::Sha1;
use digests::FiveWords;

// The hash value after a message of eight bytes, given as two words. That fourteen words of its one block are constants isn't
// used: a second copy of the steps would take 4 KB.
pub fn compress_eight(first: u32, second: u32) -> FiveWords
    ensures { result ≡ spec.hash_value (bytes4 Order.Big first ++ bytes4 Order.Big second) }
{
    block::hashing::hash_eight::<Sha1>(first, second)
}

// The hash value after the whole message.
pub fn hash_value(m: &[u8]) -> FiveWords
    ensures { result ≡ spec.hash_value m.now }
{
    block::hashing::hash::<Sha1>(m)
}
