// What an extended reply says of a renewal, to be written.
ghost use Rattle.std.specs.Prelude.{◌≤◌, length};

use password::algorithm::Algorithm;

// The new values and the new password. The seed was checked.
#[derive(Clone, Copy)]
pub struct Renewal<'a> {
    pub algorithm: Algorithm,
    pub count: u32,
    pub seed: &'a [u8],
    pub new: u64,
    ghost short: { length seed.now ≤ 16 },
}
