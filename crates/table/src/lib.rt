// The login table of one controller: accounts, ports and the lines of those that wait; and what its calls answer. Of an account's remembered seeds
// the table has the present one. The older ones, which one call in many looks at, are 3,808 bytes that the controller keeps beside the table and lends
// to the offer of a renewal: seven places of 17 bytes for each room (`accounts::older`). What they hold at the start doesn't matter.
#![tactic(auto)]

ghost use Rattle.std.specs.Prelude.{ℕ, ◌≡◌, List};
ghost use Rattle.table.specs.Table as spec;

use accounts::{Account, FREE};
use line::Lines;
use port::Port;
use refusal::{Checked, Refusal};

// Where accounts stand in a table.
pub mod held;

#[derive(Clone, Copy)]
pub struct Table {
    pub rooms: [Account; 32],
    pub ports: [Port; 4],
    pub lines: Lines,
}

// The new count, or why there is none.
pub type Replied = Result<u16, Refusal>;

// A table with the answer beside it. The table stands first, so that no gap of unused bytes lies before it: the compiler
// then copies it once less.
#[derive(Clone, Copy)]
pub struct Settled {
    pub table: Table,
    pub answer: Checked,
}

#[derive(Clone, Copy)]
pub struct Answered {
    pub table: Table,
    pub answer: Replied,
}

pub fn fresh() -> Table
    ensures { (older : List ℕ) → spec.view result older ≡ spec.fresh }
{
    Table {
        rooms: [FREE; 32],
        ports: [Port { wrong: 0, shut: 0 }; 4],
        lines: Lines::fresh(),
    }
}
