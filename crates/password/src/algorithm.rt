// The algorithms that passwords are made with, and their numbers. Document 02, R-1.
ghost use Rattle.std.specs.Prelude.{◌≡◌};
ghost use Rattle.password.specs.Algorithm as spec;

// Each has its number.
#[derive(Clone, Copy)]
pub enum Algorithm {
    Md5 = 1,
    Sha1 = 2,
}

// The algorithm with that number, if it is one. A number of any size is compared as it is: 257 is none, though its lowest byte is 1.
pub fn numbered(number: u32) -> Option<Algorithm>
    ensures { result ≡ spec.numbered number }
{
    match number {
        1 => Some(Algorithm::Md5),
        2 => Some(Algorithm::Sha1),
        _ => None,
    }
}

// The algorithm of that number. For one that is no algorithm's it is MD5, which nobody looks at.
pub fn algorithm_in(number: u32) -> Algorithm
    ensures { result ≡ spec.algorithm_in (spec.numbered number) }
{
    numbered(number).unwrap_or(Algorithm::Md5)
}

pub fn number_of(algorithm: Algorithm) -> u32
    ensures { result ≡ spec.algorithm_number algorithm }
{
    algorithm as u32
}
