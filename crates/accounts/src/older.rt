// The older seeds of all accounts are 3,808 bytes, which the offer of a renewal is lent: seven places of 17 bytes for each of the 32 rooms, newest first.
// A place has the seed's length, the seed, and what is left of 16 bytes. Here is what an accepted renewal makes of them.
ghost use Rattle.std.specs.Prelude.{◌≡◌, ◌<◌, length};
ghost use Rattle.accounts.specs.OlderBytes.{pushed, remembering};

use crate::Account;
use crate::seeds::seed_len;

// The present seed comes before the older ones of its room: each moves on by a place, and the last of seven is forgotten.
fn push(places: &mut [u8], account: Account)
    requires { length places.old ≡ 119 }
    ensures { places.new ≡ pushed account places.old }
{
    places.copy_within(..102, 17);
    places[0] = seed_len(account) as u8;
    places[1..17].copy_from_slice(&account.seed);
}

// The account in that room is about to have another seed: the present one becomes the newest of the older ones.
pub fn remember(older: &mut [u8; 3808], room: usize, account: Account)
    requires room_bound { room < 32 }
    ensures { older.new ≡ remembering room account older.old }
{
    let from = room * 119;
    push(&mut older[from..from + 119], account);
}
