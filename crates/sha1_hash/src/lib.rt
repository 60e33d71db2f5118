// SHA-1 (FIPS 180-4): the hash value after a message, and the digest.
#![tactic(auto)]

pub use crate::eighty_steps::Sha1;

// The message schedule, sixteen words at a time.
mod schedule;
// The eighty steps on the working variables.
mod eighty_steps;
// The hash value after a message, and after one of eight bytes.
pub mod compress;
// The digest of a message of 0 to 4,096 bytes, at the front of a lent buffer.
pub mod digest;
