// The names of the algorithms, read and written. Document 02, R-1.
ghost use Rattle.std.specs.Prelude.{◌≡◌, [], ◌∷◌, ◌++◌, ◌+◌, ◌≤◌, length};
ghost use Rattle.text.specs.Put.{Put};
ghost use Rattle.password.specs.Algorithm.{algorithm_name, named};

use crate::algorithm::Algorithm;
use text::put::copy_and;
use text::scan::same;

// An algorithm's name.
#[tactic(auto, unfolding(crate::specs::Algorithm::algorithm_name, text::specs::Quoted::codes))]
fn name_of(algorithm: Algorithm) -> &'static [u8]
    ensures { result.now ≡ algorithm_name algorithm }
{
    match algorithm {
        Algorithm::Md5 => b"md5",
        Algorithm::Sha1 => b"sha1",
    }
}

// The algorithm with that name, in lower case and whole, if it is one.
pub fn read_name(name: &[u8]) -> Option<Algorithm>
    ensures { result ≡ named name.now }
{
    if same(name, name_of(Algorithm::Md5)) {
        return Some(Algorithm::Md5);
    }
    if same(name, name_of(Algorithm::Sha1)) {
        return Some(Algorithm::Sha1);
    }
    None
}

// How many bytes a name has.
pub fn name_length(algorithm: Algorithm) -> usize
    ensures { (result ≡ length (algorithm_name algorithm)) × (result ≤ 4) }
{
    name_of(algorithm).len()
}

// An algorithm's name and a space after it.
pub fn put_name(buf: &mut [u8], algorithm: Algorithm) -> usize
    requires { length (algorithm_name algorithm) + 1 ≤ length buf.old }
    ensures { Put (algorithm_name algorithm ++ 32 ∷ []) buf.old buf.new result }
{
    copy_and(buf, name_of(algorithm), b' ')
}
