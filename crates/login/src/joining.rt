// The call of a port that joins an account's line.
ghost use Rattle.std.specs.Prelude.{ℕ, ◌≡◌, List, eqb, get_or};
ghost use Rattle.refusal.specs.Checks.{in_order};
ghost use Rattle.accounts.specs.Rooms.{room_of};
ghost use Rattle.table.specs.Table.{view, fresh_port};
ghost use Rattle.table.specs.Steps as steps;
ghost use Rattle.login.specs.Inside.{join_checks, join_found};

use accounts::Account;
use port::Port;
use refusal::{Checked, Refusal};
use table::held::{account_at, place_of};
use table::{Settled, Table};

// Whether a port is open. One that isn't there is.
fn is_open(ports: [Port; 4], port: u8) -> bool
    ensures { result ≡ eqb (get_or ports port fresh_port).shut 0 }
{
    if 3 < port {
        return true;
    }
    let p = port as usize;
    let own = ports[p];
    own.shut == 0
}

// Join's checks in their order: 55, 54, 56, 57, 58.
fn join_answer(known: bool, there: bool, out: bool, unshut: bool, unused: bool) -> Checked
    ensures { result ≡ in_order (join_checks known there out unshut unused) }
{
    if !known {
        return Err(Refusal::PortUnknown);
    }
    if !there {
        return Err(Refusal::AccountMissing);
    }
    if !out {
        return Err(Refusal::PortInLine);
    }
    if !unshut {
        return Err(Refusal::PortShut);
    }
    if !unused {
        return Err(Refusal::AccountUsedUp);
    }
    Ok(())
}

// The account is what was found where its id was looked up: a free room where it isn't there.
fn check_join(table: Table, port: u8, account: Account) -> Checked
    ensures { (older part : List ℕ) → result ≡ in_order (join_found port (room_of account part) (view table older)) }
{
    let lines = table.lines;
    let inside = lines.has(port);
    let ports = table.ports;
    let unshut = is_open(ports, port);
    join_answer(
        port <= 3,
        account.id != 0,
        !inside,
        unshut,
        1 < account.count,
    )
}

pub fn join(mut table: Table, port: u8, id: u16) -> Settled
    ensures { (older : List ℕ) → steps.settled result older ≡ steps.join port id (view table older) }
{
    let place = place_of(table, id);
    let answer = check_join(table, port, account_at(table, place));
    if let Err(_) = answer {
        return Settled { table, answer };
    }
    let waiting = table.lines;
    let lines = waiting.join(port, place);
    table.lines = lines;
    Settled { table, answer }
}
