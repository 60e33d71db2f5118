// Where accounts stand in a table.
ghost use Rattle.std.specs.Prelude.{ℕ, ◌≡◌, List, ltb};
ghost use Rattle.accounts.specs.Rooms.{part_of, room_of};
ghost use Rattle.table.specs.Table.{view, place_of, holds, room_at, with_account};

use crate::Table;
use accounts::{Account, FREE};

// The first room with that id, with 0 the first free one; 32 where none has it, as the definition has it, which the steps cite.
pub fn place_of(table: Table, id: u16) -> usize
    ensures { (older : List ℕ) → (result ≡ place_of id (view table older).rooms) × (ltb result 32 ≡ holds id (view table older).rooms) }
{
    table
        .rooms
        .iter()
        .position(|room| room.id == id)
        .unwrap_or(32)
}

// The account in that room; a free room past the last. A test and a place, here and in `put`: with `get_mut` the prover loses what is written.
pub fn account_at(table: Table, place: usize) -> Account
    ensures { (older : List ℕ) → room_of result (part_of older place) ≡ (room_at place (view table older)).account }
{
    if place < 32 { table.rooms[place] } else { FREE }
}

// The table with that account in that room, whose line stays; as it is past the last.
pub fn put(mut table: Table, place: usize, account: Account) -> Table
    ensures { (older : List ℕ) → view result older ≡ with_account place (room_of account (part_of older place)) (view table older) }
{
    if place < 32 {
        table.rooms[place] = account;
    }
    table
}
