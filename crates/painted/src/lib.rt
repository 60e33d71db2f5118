// What the benchmark calls from C (bench/turns.c) to see how much stack the offers take: callers that have a table of 32 accounts, hand it over by
// value and put what comes back in its place, as often as they are told, so that nothing of it can be left out. For the benchmark alone: no crate stands
// on this one, and its functions promise nothing. They are proved to be safe, and to end.
#![tactic(auto)]

use accounts::Account;
use line::{Lines, Place};
use password::algorithm::algorithm_in;
use port::Port;
use refusal::listing_of;
use table::{Replied, Table};

fn account(id: u16, algorithm: u32, stored: u64) -> Account {
    let seed = *b"dog2dog2dog2dog1";
    Account {
        id,
        algorithm: algorithm_in(algorithm),
        seed,
        len: 16,
        count: 100,
        older_count: 7,
        password: stored,
    }
}

fn waiting(port: u8, room: u8) -> Place {
    Place {
        port,
        room,
        turn: 60,
    }
}

// An account in each room; port 0 is in front of the line of that room's, and port 1 behind it. The table is written out, since the calls that could make
// it take stack of their own. That room's account is put in by the callers: since they learn its number only when they run, the compiler leaves their
// table in one piece.
fn full(room: u8, algorithm: u32, stored: u64) -> Table {
    let other = account(1, algorithm, stored);
    let rooms = [other; 32];
    let places = [
        waiting(0, room),
        waiting(1, room),
        waiting(2, room),
        waiting(3, room),
    ];
    Table {
        rooms,
        ports: [Port { wrong: 0, shut: 0 }; 4],
        lines: Lines { places, len: 2 },
    }
}

// 0, or the refusal's number.
fn number_of(answer: Replied) -> u32 {
    match answer {
        Ok(_) => 0,
        Err(why) => listing_of(why).0,
    }
}

// The last answer.
#[unsafe(no_mangle)]
pub extern "C" fn painted_offer(
    times: u32,
    room: u8,
    algorithm: u32,
    stored: u64,
    port: u8,
    password: u64,
) -> u32 {
    let mut table = full(room, algorithm, stored);
    table.rooms[(room % 32) as usize] = account(2, algorithm, stored);
    let mut number = 0;
    for _ in 0..times {
        let made = login::offer(table, port, password);
        number = number_of(made.answer);
        table = made.table;
    }
    number
}

#[unsafe(no_mangle)]
pub extern "C" fn painted_offer_renewal(
    times: u32,
    room: u8,
    algorithm: u32,
    stored: u64,
    port: u8,
    older: &mut [u8; 3808],
    count: u16,
    seed: &[u8],
    new: u64,
    password: u64,
) -> u32 {
    let mut table = full(room, algorithm, stored);
    table.rooms[(room % 32) as usize] = account(2, algorithm, stored);
    let mut number = 0;
    for _again in 0..times {
        let made = login::offer_renewal(table, older, port, algorithm, count, seed, new, password);
        number = number_of(made.answer);
        table = made.table;
    }
    number
}
