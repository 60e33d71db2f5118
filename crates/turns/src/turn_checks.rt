// What Challenge and Offer check first, also of a renewal: the port is in front of its own line, and its account isn't used up.
ghost use Rattle.std.specs.Prelude.{ℕ, ◌≡◌, List};
ghost use Rattle.line.specs.Line as line;
ghost use Rattle.accounts.specs.Rooms.{room_of};
ghost use Rattle.table.specs.Table.{is_front};
ghost use Rattle.refusal.specs.Checks.{in_order};
ghost use Rattle.turns.specs.TurnChecks.{place_checks, account_checks, front_checked};

use accounts::Account;
use line::Lines;
use refusal::{Checked, Refusal};

// Whether that port is in front of the line of the account in that room.
fn has_turn(lines: Lines, place: usize, port: u8) -> bool
    ensures { result ≡ is_front port (line.front_of (line.waiting lines place)) }
{
    lines.front_of(place) == Some(port)
}

// 55, 59, 60, of the room in whose line the port stands; 32 where it is in none, as the steps have it.
fn check_place(lines: Lines, place: usize, port: u8) -> Checked
    ensures { result ≡ in_order (place_checks port place (line.waiting lines place)) }
{
    if 3 < port {
        return Err(Refusal::PortUnknown);
    }
    if 31 < place {
        return Err(Refusal::PortNotInLine);
    }
    if !has_turn(lines, place, port) {
        return Err(Refusal::PortNotInFront);
    }
    Ok(())
}

// 54, 58, of what stands in that room: a free room where no account is there.
fn check_account(account: Account) -> Checked
    ensures { (part : List ℕ) → result ≡ in_order (account_checks (room_of account part)) }
{
    if account.id == 0 {
        return Err(Refusal::AccountMissing);
    }
    if account.count < 2 {
        return Err(Refusal::AccountUsedUp);
    }
    Ok(())
}

pub fn check_turn(lines: Lines, place: usize, account: Account, port: u8) -> Checked
    ensures { (part : List ℕ) → result ≡ front_checked port place (line.waiting lines place) (room_of account part) }
{
    check_place(lines, place, port)?;
    check_account(account)
}
