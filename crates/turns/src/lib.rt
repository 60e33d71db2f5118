// The calls of the port that has the turn: Challenge, and Offer, of a password or of a renewal. A caller that has a text reads it first (`extended`).
#![tactic(auto)]

ghost use Rattle.std.specs.Prelude.{ℕ, ◌≡◌, List, length, get_or, set};
ghost use Rattle.text.specs.Put.{leaves};
ghost use Rattle.table.specs.Table.{view, fresh_port};
ghost use Rattle.table.specs.Steps as steps;
ghost use Rattle.refusal.specs.declared.Refusal.{Refusal};
ghost use Rattle.turns.specs.TurnPart.{seen, seen_by, outcome, after};

use crate::offering::{Outcome, TurnPart, logged_in};
use crate::renewals::renewed;
use crate::turn_checks::check_turn;
use accounts::lowered::write_challenge;
use port::Port;
use refusal::Written;
use table::held::{account_at, put};
use table::{Answered, Table};

// What all three check first: the port is in front, and its account isn't used up.
mod turn_checks;
// What is done with a password that is offered in a turn.
mod offering;
// What is done with a renewal that is.
mod renewals;

// A port's own record; a fresh one where there is none.
fn own_of(ports: [Port; 4], port: u8) -> Port
    ensures { result ≡ get_or ports port fresh_port }
{
    if 3 < port {
        return Port { wrong: 0, shut: 0 };
    }
    let p = port as usize;
    ports[p]
}

// What a port's call looks at.
fn turn_of(table: Table, port: u8) -> TurnPart
    ensures { (older : List ℕ) → seen result older ≡ seen_by port (view table older) }
{
    let lines = table.lines;
    let place = lines.room_of(port).unwrap_or(32); // past the last room, where it is in none
    let account = account_at(table, place);
    let checked = check_turn(lines, place, account, port);
    let ports = table.ports;
    let own = own_of(ports, port);
    TurnPart {
        place,
        account,
        own,
        checked,
    }
}

// The records with another one for that port.
fn put_own(mut ports: [Port; 4], port: u8, own: Port) -> [Port; 4]
    ensures { result ≡ set ports port own }
{
    if 3 < port {
        return ports;
    }
    let p = port as usize;
    ports[p] = own;
    ports
}

// The table with what became of the account and of the port.
fn put_back(table: Table, port: u8, made: Outcome) -> Answered
    ensures { (older : List ℕ) → steps.answered result older ≡ after port (view table older) (outcome made older) }
{
    let account = made.account;
    let mut next = put(table, made.place, account);
    let ports = next.ports;
    let own = put_own(ports, port, made.own);
    next.ports = own;
    if made.leaves {
        let waiting = next.lines;
        let lines = waiting.leave(port);
        next.lines = lines;
    }
    let answer = made.answer;
    Answered {
        table: next,
        answer,
    }
}

// What the port is to answer. The table stays as it is.
pub fn challenge(table: Table, port: u8, buf: &mut [u8]) -> Written
    ensures answered { (older : List ℕ) → result ≡ steps.challenge port (length buf.old) (view table older) }
    ensures left { (older : List ℕ) → buf.new ≡ leaves result (steps.challenge_for port (view table older)) buf.old }
{
    let turn = turn_of(table, port);
    turn.checked?;
    write_challenge(turn.account, buf)
}

// A password, however the port came by it. The older seeds stay.
pub fn offer(table: Table, port: u8, password: u64) -> Answered
    ensures { (older : List ℕ) → steps.answered result older ≡ steps.offer port password (view table older) }
{
    let made = logged_in(turn_of(table, port), password);
    put_back(table, port, made)
}

// New values, a new password and the present one. The older seeds are lent: an accepted renewal changes those of its account.
pub fn offer_renewal(
    table: Table,
    older: &mut [u8; 3808],
    port: u8,
    algorithm: u32,
    count: u16,
    seed: &[u8],
    new: u64,
    password: u64,
) -> Answered
    ensures answered { steps.answered result older.new
        ≡ steps.offer_renewal port algorithm count seed.now new password (view table older.old) }
    ensures left { (why : Refusal) → result.answer ≡ Err why → older.new ≡ older.old }
{
    let made = renewed(
        turn_of(table, port),
        older,
        algorithm,
        count,
        seed,
        new,
        password,
    );
    put_back(table, port, made)
}
