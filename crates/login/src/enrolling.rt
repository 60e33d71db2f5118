// The calls that keep accounts: Enrol and Remove.
ghost use Rattle.std.specs.Prelude.{ℕ, ◌≡◌, List};
ghost use Rattle.accounts.specs.declared.Account.{Account};
ghost use Rattle.refusal.specs.Checks.{in_order, checked_of};
ghost use Rattle.table.specs.Table.{view};
ghost use Rattle.table.specs.Steps as steps;
ghost use Rattle.login.specs.Inside.{enrol_found, there};

use accounts::values::enrolment;
use accounts::{Account, FREE};
use refusal::{Checked, Refusal};
use table::held::{place_of, put};
use table::{Settled, Table};

// Enrol's checks in their order: 50, then those of the values, 52, 53. The places are those of the id and of the first free room.
fn check_enrol(
    id: u16,
    made: Result<Account, Refusal>,
    place: usize,
    room: usize,
) -> Result<Account, Refusal>
    ensures checked { checked_of result ≡ in_order (enrol_found id (checked_of made) place room) }
    ensures account { (account : Account) → result ≡ Ok account → made ≡ Ok account }
{
    if id == 0 {
        return Err(Refusal::IdZero);
    }
    let account = made?;
    if place < 32 {
        return Err(Refusal::IdTaken);
    }
    if 31 < room {
        return Err(Refusal::TableFull);
    }
    Ok(account)
}

pub fn enrol(
    table: Table,
    id: u16,
    algorithm: u32,
    count: u16,
    seed: &[u8],
    password: &[u8; 8],
) -> Settled
    ensures { (older : List ℕ) → steps.settled result older
        ≡ steps.enrol id algorithm count seed.now password.now (view table older) }
{
    let place = place_of(table, id);
    let room = place_of(table, 0);
    let made = enrolment(id, algorithm, count, seed, password);
    match check_enrol(id, made, place, room) {
        Ok(account) => Settled {
            table: put(table, room, account),
            answer: Ok(()),
        },
        Err(why) => Settled {
            table,
            answer: Err(why),
        },
    }
}

// Remove's check: 54.
fn check_remove(id: u16, place: usize) -> Checked
    ensures { result ≡ there id place }
{
    if (id != 0) & (place < 32) {
        return Ok(());
    }
    Err(Refusal::AccountMissing)
}

pub fn remove(table: Table, id: u16) -> Settled
    ensures { (older : List ℕ) → steps.settled result older ≡ steps.remove id (view table older) }
{
    let place = place_of(table, id);
    let answer = check_remove(id, place);
    if let Err(_) = answer {
        return Settled { table, answer };
    }
    let mut next = put(table, place, FREE);
    let waiting = next.lines;
    let lines = waiting.remove(place);
    next.lines = lines;
    Settled {
        table: next,
        answer,
    }
}
