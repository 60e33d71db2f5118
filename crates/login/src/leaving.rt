// The call of a port that leaves its line.
ghost use Rattle.std.specs.Prelude.{ℕ, ◌≡◌, List};
ghost use Rattle.table.specs.Table.{view};
ghost use Rattle.table.specs.Steps as steps;

use refusal::{Checked, Refusal};
use table::{Settled, Table};

fn check_leave(table: Table, port: u8) -> Checked
    ensures { (older : List ℕ) → result ≡ steps.leave_checked port (view table older) }
{
    if 3 < port {
        return Err(Refusal::PortUnknown);
    }
    let lines = table.lines;
    if lines.has(port) {
        return Ok(());
    }
    Err(Refusal::PortNotInLine)
}

pub fn leave(mut table: Table, port: u8) -> Settled
    ensures { (older : List ℕ) → steps.settled result older ≡ steps.leave port (view table older) }
{
    let answer = check_leave(table, port);
    if let Err(_) = answer {
        return Settled { table, answer };
    }
    let waiting = table.lines;
    let lines = waiting.leave(port);
    table.lines = lines;
    Settled { table, answer }
}
