// What is done with a renewal that is offered in a turn.
ghost use Rattle.std.specs.Prelude.{ℕ, ◌<◌, ◌≡◌};
ghost use Rattle.accounts.specs.Rooms.{part_of};
ghost use Rattle.accounts.specs.OlderBytes.{remembering};
ghost use Rattle.turns.specs.TurnPart as spec;
ghost use Rattle.turns.specs.TurnPart.{seen, outcome, older_after};
ghost use Rattle.refusal.specs.declared.Refusal.{Refusal};

use crate::offering::{Outcome, TurnPart, compare, stays};
use accounts::older::remember;
use accounts::values::renewal;
use table::Replied;

// Behind the turn's checks: the values are checked, and the present password is compared. The account that the renewal makes is one beside which the
// present seed is remembered.
fn renew_values(
    turn: TurnPart,
    older: &[u8; 3808],
    algorithm: u32,
    count: u16,
    seed: &[u8],
    new: u64,
    password: u64,
) -> Outcome
    requires place_bound { turn.place < 32 }
    ensures { outcome result (older_after result.answer older.now (remembering turn.place turn.account older.now))
        ≡ spec.renew_values algorithm count seed.now new password (seen turn older.now) }
{
    let account = turn.account;
    match renewal(account, older, turn.place, algorithm, count, seed, new) {
        Ok(next) => compare(turn, password, next),
        Err(bad) => stays(turn, Err(bad)),
    }
}

// Where a renewal is accepted, the seed that the account had is remembered.
fn keep_seed(older: &mut [u8; 3808], turn: TurnPart, answer: Replied)
    requires place_bound { turn.place < 32 }
    ensures { older.new ≡ older_after answer older.old (remembering turn.place turn.account older.old) }
{
    if answer.is_ok() {
        let account = turn.account;
        remember(older, turn.place, account);
    }
}

// The older seeds are lent; those of the turn's own room are others where the renewal is accepted.
pub fn renewed(
    turn: TurnPart,
    older: &mut [u8; 3808],
    algorithm: u32,
    count: u16,
    seed: &[u8],
    new: u64,
    password: u64,
) -> Outcome
    requires place_bound { turn.checked ≡ Ok tt → turn.place < 32 }
    ensures said { outcome result older.new
        ≡ spec.renewed algorithm count seed.now new password (seen turn older.old) }
    ensures left { (why : Refusal) → result.answer ≡ Err why → older.new ≡ older.old }
    ensures elsewhere { (room : ℕ) → (room ≡ result.place → ⊥) → part_of older.new room ≡ part_of older.old room }
{
    if let Err(why) = turn.checked {
        return stays(turn, Err(why));
    }
    let made = renew_values(turn, older, algorithm, count, seed, new, password);
    let answer = made.answer;
    keep_seed(older, turn, answer);
    made
}
