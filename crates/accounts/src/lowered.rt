// What an account asks for, and what it becomes with the reply.
ghost use Rattle.std.specs.Prelude.{◌≡◌, true, ℕ, ◌-◌, List, length};
ghost use Rattle.challenge.specs.Challenges.{challenge_text, challenge_written_by};
ghost use Rattle.text.specs.Put.{leaves};
ghost use Rattle.accounts.specs.Rooms.{seed_in, room_of};
ghost use Rattle.accounts.specs.Accounts.{lowered};

use crate::Account;
use crate::seeds::seed_len;
use challenge::writing::write_by;
use refusal::Written;

// The count of the password that is asked for.
fn count_below(account: Account) -> u16
    ensures { result ≡ account.count - 1 }
{
    account.count.saturating_sub(1)
}

// Writes the account's challenge, with the mark.
pub fn write_challenge(account: Account, buf: &mut [u8]) -> Written
    ensures answered { result ≡ challenge_written_by true account.algorithm (seed_in account) (account.count - 1) (length buf.old) }
    ensures left { buf.new ≡ leaves result (challenge_text true account.algorithm (seed_in account) (account.count - 1)) buf.old }
{
    let seed = &account.seed[..seed_len(account)];
    write_by(
        true,
        account.algorithm,
        seed,
        count_below(account) as u32,
        buf,
    )
}

// The account one count down, with the password that was offered.
pub fn lower(account: Account, password: u64) -> Account
    ensures { (part : List ℕ) → room_of result part ≡ lowered (room_of account part) password }
{
    Account {
        count: count_below(account),
        password,
        ..account
    }
}
