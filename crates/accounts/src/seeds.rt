// Seeds that are kept.
ghost use Rattle.std.specs.Prelude.{◌≡◌, map, ◌≤◌, length};
ghost use Rattle.accounts.specs.Rooms.{seed_in};
ghost use Rattle.text.specs.Tests.{same};
ghost use Rattle.text.specs.Kinds.{lower_of};

use crate::Account;
use text::kinds::lower;

// How long an account's seed is.
pub fn seed_len(account: Account) -> usize
    ensures { (result ≡ length (seed_in account)) × (result ≤ 16) }
{
    account.len.min(16)
}

// Whether a seed, in lower case, is the one that is kept.
pub fn same_seed(seed: &[u8], kept: &[u8]) -> bool
    ensures { result ≡ same (map lower_of seed.now) kept.now }
{
    seed.len() == kept.len() && seed.iter().zip(kept).all(|(b, k)| lower(*b) == *k)
}
