// RFC 1321, 3.3 and 3.4: the registers after a message.
ghost use Rattle.std.specs.Prelude.{◌≡◌, ◌++◌};
ghost use Rattle.digests.specs.declared.Order.{Order};
ghost use Rattle.digests.specs.Words32.{bytes4};
ghost use Rattle.digests.specs.Md5 as spec;

use crate::rounds::Md5;
use digests::State;

// The registers after a message of eight bytes, given as two words.
pub fn compress_eight(first: u32, second: u32) -> State
    ensures { result ≡ spec.registers (bytes4 Order.Little first ++ bytes4 Order.Little second) }
{
    block::hashing::hash_eight::<Md5>(first, second)
}

// The registers after the whole message.
pub fn registers(m: &[u8]) -> State
    ensures { result ≡ spec.registers m.now }
{
    block::hashing::hash::<Md5>(m)
}
