// What is done with a password that is offered in a turn.
ghost use Rattle.std.specs.Prelude.{ℕ, ◌≡◌, List};
ghost use Rattle.accounts.specs.Rooms.{part_of, room_of};
ghost use Rattle.turns.specs.TurnPart as spec;
ghost use Rattle.turns.specs.TurnPart.{seen, outcome, older_after};

use accounts::Account;
use accounts::lowered::lower;
use generator::chain::step;
use port::Port;
use refusal::Checked;
use table::Replied;

// The part of a table that a call in a turn looks at: the room in whose line the port stands, the account in that room, the port's own record, and what
// the turn's checks say. It is handed over in place of the table, which is copied less often so.
#[derive(Clone, Copy)]
pub struct TurnPart {
    pub place: usize,
    pub account: Account,
    pub own: Port,
    pub checked: Checked,
}

// An answer, with what becomes of the account in that room and of the port's own record, and whether the port leaves its line.
#[derive(Clone, Copy)]
pub struct Outcome {
    pub place: usize,
    pub account: Account,
    pub own: Port,
    pub leaves: bool,
    pub answer: Replied,
}

// An answer that changes nothing.
pub fn stays(turn: TurnPart, answer: Replied) -> Outcome
    ensures { (older : List ℕ) → outcome result older ≡ spec.stays answer (seen turn older) }
{
    let account = turn.account;
    let own = turn.own;
    Outcome {
        place: turn.place,
        account,
        own,
        leaves: false,
        answer,
    }
}

fn accepted(turn: TurnPart, next: Account) -> Outcome
    ensures { (older new : List ℕ) → outcome result new ≡ spec.accepted (room_of next (part_of new turn.place)) (seen turn older) }
{
    Outcome {
        place: turn.place,
        account: next,
        own: turn.own.after_right(),
        leaves: true, // a match uses the turn up
        answer: Ok(next.count),
    }
}

fn rejected(turn: TurnPart) -> Outcome
    ensures { (older : List ℕ) → outcome result older ≡ spec.rejected (seen turn older) }
{
    let present = turn.account;
    Outcome {
        place: turn.place,
        account: present,
        own: turn.own.after_wrong(),
        leaves: true,
        answer: Err(turn.own.wrong_answer()),
    }
}

// Where the hash, by the account's present algorithm, is the stored password, the account becomes `next`, with the older seeds that it has then.
pub fn compare(turn: TurnPart, password: u64, next: Account) -> Outcome
    ensures { (older new : List ℕ) → outcome result (older_after result.answer older new)
        ≡ spec.compared password (room_of next (part_of new turn.place)) (seen turn older) }
{
    let account = turn.account;
    let algorithm = account.algorithm;
    if step(algorithm, password) == account.password {
        return accepted(turn, next);
    }
    rejected(turn)
}

// A login: behind the turn's checks the password is compared, and on a match the account steps down.
pub fn logged_in(turn: TurnPart, password: u64) -> Outcome
    ensures { (older : List ℕ) → outcome result older ≡ spec.logged_in password (seen turn older) }
{
    if let Err(why) = turn.checked {
        return stays(turn, Err(why));
    }
    let account = turn.account;
    compare(turn, password, lower(account, password))
}
