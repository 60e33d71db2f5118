// MD5 (RFC 1321): the registers after a message, and the digest.
#![tactic(auto)]

pub use crate::rounds::Md5;

// Which of the four rounds.
mod round;
// Which word of the block an operation takes and by how much it rotates, from its round and step.
mod order_and_shift;
// A round with its constants.
mod lent;
// The operations on the registers, four at a time.
mod operations;
// The four rounds.
mod rounds;
// The constants of the rounds.
mod constants;
// The registers after a message, and after one of eight bytes.
pub mod compress;
// The digest of a message of 0 to 4,096 bytes, at the front of a lent buffer.
pub mod digest;
