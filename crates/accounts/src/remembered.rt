// Whether a seed is one of those that an account remembers: the present one, and the older ones of its room, in their places (`older`).
ghost use Rattle.std.specs.Prelude.{◌≡◌, map, ◌+◌, ◌*◌, ◌≤◌, ◌<◌, length};
ghost use Rattle.text.specs.Kinds.{lower_of};
ghost use Rattle.accounts.specs.Rooms.{part_of, in_places, room_of, remembered};
ghost use Rattle.accounts.specs.Accounts.{is_one_of};
ghost use Rattle.accounts.specs.OlderBytes.{place_at, at_most_seven};

use crate::Account;
use crate::seeds::{same_seed, seed_len};

// How many older seeds an account has.
fn older_len(account: Account) -> usize
    ensures { (result ≡ at_most_seven account.older_count) × (result ≤ 7) }
{
    (account.older_count as usize).min(7)
}

// How many it has once the present one is older.
pub fn one_more(account: Account) -> u8
    ensures { result ≡ at_most_seven (account.older_count + 1) }
{
    account.older_count.min(6) + 1
}

// The seed in the place that begins there.
fn seed_at(places: &[u8], at: usize) -> &[u8]
    requires { at + 17 ≤ length places.now }
    ensures { result.now ≡ place_at at places.now }
{
    let from = at + 1;
    &places[from..from + (places[at] as usize).min(16)]
}

// Whether a seed, in lower case, is one of the first `n` in those places.
fn is_in(places: &[u8], n: usize, seed: &[u8]) -> bool
    requires { n * 17 ≤ length places.now }
    ensures { result ≡ is_one_of (map lower_of seed.now) (in_places n places.now) }
{
    (0..n).any(|i| same_seed(seed, seed_at(places, i * 17)))
}

// Whether a seed, in lower case, is one of those that the account in that room remembers.
pub fn is_remembered(account: Account, older: &[u8; 3808], room: usize, seed: &[u8]) -> bool
    requires { room < 32 }
    ensures { result ≡ is_one_of (map lower_of seed.now) (remembered (room_of account (part_of older.now room))) }
{
    let from = room * 119;
    same_seed(seed, &account.seed[..seed_len(account)])
        || is_in(&older[from..from + 119], older_len(account), seed)
}
