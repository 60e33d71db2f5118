// An account's new values: 51, 21, 23, 24 and 63.
ghost use Rattle.std.specs.Prelude.{◌≡◌, ℕ, ◌≤◌, ◌<◌, length, take, List};
ghost use Rattle.accounts.specs.Rooms.{room_of, part_of, in_places};
ghost use Rattle.password.specs.Algorithm as names;
ghost use Rattle.password.specs.Algorithm.{algorithm_checked};
ghost use Rattle.accounts.specs.Accounts.{with_values, new_room, renewed_room, count_within, seed_other, new_checked, values_checked, proposal, proposed};
ghost use Rattle.accounts.specs.OlderBytes.{remembering};

use crate::Account;
use crate::remembered::{is_remembered, one_more};
use password::algorithm::{algorithm_in, numbered};
use password::eight_bytes::number_of;
use password::phrase_and_seed::{check_seed, put_lower};
use refusal::{Checked, Refusal};

// 51.
fn check_count(count: u32) -> Checked
    ensures { result ≡ count_within count }
{
    if (2 <= count) & (count <= 9999) {
        return Ok(());
    }
    Err(Refusal::CountOutside)
}

// 21.
fn check_algorithm(algorithm: u32) -> Checked
    ensures { result ≡ algorithm_checked (names.numbered algorithm) }
{
    numbered(algorithm)
        .map(|_| ())
        .ok_or(Refusal::AlgorithmUnknown)
}

// What Enrol checks, a renewal and the writer of extended replies: 51, 21, 23, 24.
pub fn check_new(algorithm: u32, count: u32, seed: &[u8]) -> Checked
    ensures { result ≡ new_checked algorithm count seed.now }
{
    check_count(count)?;
    check_algorithm(algorithm)?;
    check_seed(seed)
}

// 63, of a renewal: the new seed is none of those that the account in that room remembers.
fn check_other(present: Account, older: &[u8; 3808], room: usize, seed: &[u8]) -> Checked
    requires room_bound { room < 32 }
    ensures { result ≡ seed_other seed.now (room_of present (part_of older.now room)) }
{
    if is_remembered(present, older, room, seed) {
        return Err(Refusal::SeedSame);
    }
    Ok(())
}

// What a renewal checks: the same, and then 63.
fn check_values(
    present: Account,
    older: &[u8; 3808],
    room: usize,
    algorithm: u32,
    count: u16,
    seed: &[u8],
) -> Checked
    requires room_bound { room < 32 }
    ensures { result ≡ values_checked algorithm count seed.now (room_of present (part_of older.now room)) }
{
    check_new(algorithm, count as u32, seed)?;
    check_other(present, older, room, seed)
}

// An account with that id, with so many older seeds, and these values.
fn account(
    id: u16,
    older_count: u8,
    algorithm: u32,
    count: u16,
    seed: &[u8],
    password: u64,
) -> Account
    requires { length seed.now ≤ 16 }
    ensures { (part : List ℕ) → room_of result part
        ≡ with_values id (take older_count (in_places 7 part)) algorithm count seed.now password }
{
    let mut kept = [0u8; 16];
    let len = put_lower(&mut kept, seed);
    Account {
        id,
        algorithm: algorithm_in(algorithm),
        seed: kept,
        len,
        count,
        older_count,
        password,
    }
}

// What Enrol makes of these values: an account that remembers one seed.
pub fn enrolment(
    id: u16,
    algorithm: u32,
    count: u16,
    seed: &[u8],
    password: &[u8; 8],
) -> Result<Account, Refusal>
    ensures { (part : List ℕ) → proposal result part ≡ proposed (new_checked algorithm count seed.now)
        (new_room id algorithm count seed.now password.now) }
{
    check_new(algorithm, count as u32, seed)?;
    Ok(account(id, 0, algorithm, count, seed, number_of(*password)))
}

// What a renewal makes of them, in place of the present account of that room. Its older seeds are as they are once the present one is remembered.
pub fn renewal(
    present: Account,
    older: &[u8; 3808],
    room: usize,
    algorithm: u32,
    count: u16,
    seed: &[u8],
    password: u64,
) -> Result<Account, Refusal>
    requires room_bound { room < 32 }
    ensures { proposal result (part_of (remembering room present older.now) room)
        ≡ proposed (values_checked algorithm count seed.now (room_of present (part_of older.now room)))
        (renewed_room (room_of present (part_of older.now room)) algorithm count seed.now password) }
{
    check_values(present, older, room, algorithm, count, seed)?;
    let older_count = one_more(present);
    Ok(account(present.id, older_count, algorithm, count, seed, password))
}
