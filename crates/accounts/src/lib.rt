// An account and its room, its seeds, and what becomes of it: new values at Enrol and at a renewal, one count down with a login.
#![tactic(auto)]

use password::algorithm::Algorithm;

// A seed that is kept: its length, and whether another is the same.
mod seeds;
// Whether a seed is one of those that an account remembers.
mod remembered;
// The bytes of older seeds, and what a renewal makes of them.
pub mod older;
// New values.
pub mod values;
// The challenge for an account, and the account one count down.
pub mod lowered;

// An account and its room: id 0 is a free room, whose algorithm says nothing. The seed is the first `len` bytes, in lower case; zeros after it.
// The length stands beside the seed, since memory is fixed and an account of any bytes has its answers.
// Of the seven places that its room has for older seeds, which stand apart from it, the first `older_count` are in use.
#[derive(Clone, Copy)]
pub struct Account {
    pub id: u16,
    pub algorithm: Algorithm,
    pub seed: [u8; 16],
    pub len: usize,
    pub count: u16,
    pub older_count: u8,
    pub password: u64,
}

pub const FREE: Account = Account {
    id: 0,
    algorithm: Algorithm::Md5,
    seed: [0u8; 16],
    len: 0,
    count: 0,
    older_count: 0,
    password: 0,
};
