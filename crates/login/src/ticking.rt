// A tick of the controller.
ghost use Rattle.std.specs.Prelude.{ℕ, ◌≡◌, List};
ghost use Rattle.table.specs.Table.{view};
ghost use Rattle.table.specs.Steps as steps;

use table::Table;

pub fn tick(mut table: Table) -> Table
    ensures { (older : List ℕ) → view result older ≡ steps.tick (view table older) }
{
    for port in table.ports.iter_mut() {
        *port = port.after_tick();
    }
    table.lines = table.lines.tick();
    table
}
