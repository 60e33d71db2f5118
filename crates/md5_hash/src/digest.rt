// The digest of a message of 0 to 4,096 bytes, at the front of a lent buffer.
ghost use Rattle.std.specs.Prelude.{◌≡◌, length};
ghost use Rattle.text.specs.Put.{leaves};
ghost use Rattle.digests.specs.Md5.{md5};
ghost use Rattle.block.specs.Digest.{digest_of};

use crate::rounds::Md5;
use refusal::Written;

// The digest of a message of at most 4,096 bytes, sixteen bytes at the front of the buffer.
pub fn digest(m: &[u8], buf: &mut [u8]) -> Written
    ensures answered { result ≡ digest_of md5 m.now (length buf.old) }
    ensures left { buf.new ≡ leaves result (md5 m.now) buf.old }
{
    block::hashing::digest::<Md5>(m, buf)
}
