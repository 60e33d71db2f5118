// Repeats one call of the login table, or one reading, for the benchmark: a letter, 0, 1 or 3 for 0, 1 or 32 accounts, and how many thousand times.
//   e Enrol; r Remove; j Join; c Challenge; l Leave, and m with four lines; i, t, f, u Tick: nobody in line, four in one, four in four, one with three shut
//   h, H Offer of the right password, which is made before the first repetition; capital letters are for accounts with SHA-1
//   n, o Offer of a renewal, likewise: the account's first one, and one of an account that remembers eight seeds
//   a, b a text read, without a table: six words, sixteen digits
//   w, W, k, g, y a text read, and what it says offered: words, words for SHA-1, digits, `hex:`, and `init-word:`, a renewal as that of o
//   s, S the one hash that an offer does; x nothing, so that the table is only copied
// Prints what the last table has: ports in line, the turns of the first of them and of the fourth, port 0's wrong run, port 3's shut ticks; in place
// of those after a renewal how long the seed is that the account remembers behind its present one. Of a reading or a hash it prints the last password.
#![tactic(auto)]

use extended::reply_texts::{ReplyText, seed_part};
use generator::chain::step;
use generator::generate;
use line::Lines;
use password::algorithm::{Algorithm, number_of};
use password::eight_bytes::bytes_of;
use port::Port;
use std::io;
use std::io::Read;
use table::held::{account_at, place_of, put};
use table::{Table, fresh};

// The call that is repeated.
#[derive(Clone, Copy, PartialEq, Eq)]
enum Call {
    Enrol,
    Remove,
    Join,
    Challenge,
    Leave,
    Tick,
    Offer,
    Renewal,
    Nothing,
}

// What is offered: a password; for a renewal also new values and a new password.
#[derive(Clone, Copy)]
struct Offered<'a> {
    algorithm: u32,
    count: u16,
    seed: &'a [u8],
    new: u64,
    password: u64,
}

// What a letter stands for is told by a function for each thing that it tells: one table of all letters would be longer than 40 lines.
fn algorithm_of(letter: u8) -> Algorithm {
    match letter {
        b'H' | b'W' | b'S' => Algorithm::Sha1,
        _ => Algorithm::Md5,
    }
}

// The call that a letter repeats.
fn call_of(letter: u8) -> Call {
    match letter {
        b'e' => Call::Enrol,
        b'r' => Call::Remove,
        b'j' => Call::Join,
        b'c' => Call::Challenge,
        b'l' | b'm' => Call::Leave,
        b'i' | b't' | b'f' | b'u' => Call::Tick,
        b'h' | b'H' | b'w' | b'W' | b'k' | b'g' => Call::Offer,
        b'n' | b'o' | b'y' => Call::Renewal,
        _ => Call::Nothing,
    }
}

// Whether each repetition reads a text.
fn is_read(letter: u8) -> bool {
    matches!(letter, b'w' | b'W' | b'k' | b'g' | b'y')
}

// The text that is read; where a renewal is offered that isn't read, its seed.
fn text_of(letter: u8) -> &'static [u8] {
    match letter {
        b'a' | b'w' => b"FOWL KID MASH DEAD DUAL OAF",
        b'W' => b"ONCE GRAB SOOT CUBE SLAY WAIT",
        b'b' | b'k' => b"85C4 3EE0 3857 765B",
        b'g' => b"hex:85c43ee03857765b",
        b'y' => {
            b"init-word:FOWL KID MASH DEAD DUAL OAF:md5 99 dog2dog2dog2dog2:FOWL KID MASH DEAD DUAL OAF"
        }
        b'n' => b"dog2",
        b'o' => b"dog2dog2dog2dog2",
        _ => b"",
    }
}

// The password of document 01's card at that count; the one at count 99 is offered here.
fn password_at(algorithm: u32, count: u32) -> u64 {
    let Ok(p) = generate(algorithm, b"A_Valid_Pass_Phrase", b"AValidSeed", count) else {
        return 0;
    };
    p
}

// A table with that many accounts, each at count 100.
fn table_of(algorithm: u32, accounts: u16) -> Table {
    let stored = bytes_of(password_at(algorithm, 100));
    let mut t = fresh();
    for id in 1..=accounts {
        t = login::enrol(t, id, algorithm, 100, b"AValidSeed", &stored).table;
    }
    t
}

// The lines with that many places in use.
fn with_len(mut lines: Lines, len: u8) -> Lines {
    lines.len = len as usize;
    lines
}

// The turn in a place; 0 where nobody stands there.
fn turn_in(lines: Lines, at: usize) -> u8 {
    let mut places = lines.places.iter().take(lines.len);
    places.nth(at).map_or(0, |place| place.turn)
}

// Challenge leaves the table as it is: the first byte that was written stands in for a change.
fn challenged(table: Table, port: u8) -> Table {
    let mut buf = [0u8; 64];
    let _ = login::challenge(table, port, &mut buf);
    let rooms = table.rooms;
    let ports = table.ports;
    let lines = with_len(table.lines, buf[0]);
    Table {
        rooms,
        ports,
        lines,
    }
}

// Ports 1, 2 and 3 wait for that account.
fn others_join(table: Table, id: u16) -> Table {
    let mut t = table;
    for port in 1..4 {
        t = login::join(t, port, id).table;
    }
    t
}

// Port 0 waits for that account, in front of the others.
fn all_join(table: Table, id: u16) -> Table {
    let front = login::join(table, 0, id).table;
    others_join(front, id)
}

// That account has eight seeds. The present one differs from the new one in the last character; a renewal makes it the newest of the older ones, so
// after seven repetitions, which all start from this account, the older ones are like it, and the new one is compared to the end with each.
fn with_eight(table: Table, id: u16) -> Table {
    let place = place_of(table, id);
    let mut account = account_at(table, place);
    let seed = *b"dog2dog2dog2dog1";
    account.seed = seed;
    account.len = 16;
    account.older_count = 7;
    put(table, place, account)
}

// Of 32 accounts the last four have a port in line each.
fn four_lines(table: Table) -> Table {
    let mut t = table;
    for port in 0..4 {
        t = login::join(t, port, 32 - u16::from(port)).table;
    }
    t
}

// Ports 1, 2 and 3 are shut.
fn others_shut(table: Table) -> Table {
    let rooms = table.rooms;
    let lines = table.lines;
    let shut = Port {
        wrong: 0,
        shut: 900,
    };
    Table {
        rooms,
        ports: [Port { wrong: 0, shut: 0 }, shut, shut, shut],
        lines,
    }
}

// The table that a call finds: port 0 in front of three others; for Join without port 0; for the ticks of the letter u with the three shut; for
// those of the letter f, and for leaving by the letter m, each port in a line of its own, in the latter since a tick; for renewing by the letters o
// and y the account remembers eight seeds.
fn prepared(letter: u8, table: Table, id: u16) -> Table {
    match letter {
        b'e' | b'i' => table,
        b'j' => others_join(table, id),
        b'f' => four_lines(table),
        b'm' => login::tick(four_lines(table)),
        b'u' => login::join(others_shut(table), 0, id).table,
        b'o' | b'y' => all_join(with_eight(table, id), id),
        _ => all_join(table, id),
    }
}

// A password alone. The rest is what a renewal has that isn't read; a login leaves it out.
fn ready(password: u64, seed: &[u8]) -> Offered<'_> {
    Offered {
        algorithm: 1,
        count: 99,
        seed,
        new: 7,
        password,
    }
}

// What a text says; where it is refused, a wrong password.
fn said_in(text: &[u8]) -> Offered<'_> {
    match extended::reply_texts::read(text) {
        Ok(ReplyText::Login(password)) => ready(password, b""),
        Ok(
            ReplyText::Renewal {
                algorithm,
                count,
                start,
                len,
                new,
                present,
            },
        ) => Offered {
            algorithm,
            count,
            seed: seed_part(text, start, len),
            new,
            password: present,
        },
        Err(_) => ready(0, b""),
    }
}

// What a text says from that place on.
fn said_from(text: &[u8], at: usize) -> Offered<'_> {
    match text.get(at..) {
        Some(rest) => said_in(rest),
        None => ready(0, b""),
    }
}

// What a repetition offers: what it reads from the text's start on, or the password that is ready. By another port than 0 it would be something else.
fn offered_by(reads: bool, text: &[u8], password: u64, port: u8) -> Offered<'_> {
    if reads {
        return said_from(text, port as usize);
    }
    ready(if port == 0 { password } else { 0 }, text)
}

// Each call stands here itself: behind a function of the meter's own the compiler would copy the table once more, in other calls too.
fn once(call: Call, table: Table, older: &mut [u8; 3808], port: u8, id: u16, it: Offered) -> Table {
    let stored = [7u8; 8];
    match call {
        Call::Enrol => login::enrol(table, 1000, 1, 99, b"AValidSeed", &stored).table,
        Call::Remove => login::remove(table, id).table,
        Call::Join => login::join(table, port, id).table,
        Call::Leave => login::leave(table, port).table,
        Call::Challenge => challenged(table, port),
        Call::Offer => login::offer(table, port, it.password).table,
        Call::Renewal => login::offer_renewal(
            table,
            older,
            port,
            it.algorithm,
            it.count,
            it.seed,
            it.new,
            it.password,
        )
        .table,
        Call::Tick => login::tick(table),
        Call::Nothing => table,
    }
}

// Each repetition's port comes from the table before it (0: four wait at most, and a challenge starts with the letter o), and what it offers from the
// port, so that none can be left out. Ticks go on from the table before: the 60 of a turn, in the last of which the front leaves, and then those of the
// same turn again. What is asked for comes word by word: by a struct of letter, accounts and times, an offer with eight seeds took 6% more instructions.
fn repeat(
    letter: u8,
    start: Table,
    older: &mut [u8; 3808],
    id: u16,
    text: &[u8],
    password: u64,
    times: u64,
) -> Table {
    let call = call_of(letter);
    let reads = is_read(letter);
    let mut last = start;
    for k in 0..times {
        let port = if last.lines.len < 200 { 0 } else { 1 };
        let from = if (call == Call::Tick) & (k % 60 != 0) {
            last
        } else {
            start
        };
        let it = offered_by(reads, text, password, port);
        last = once(call, from, older, port, id, it);
    }
    last
}

// A text read from its start on, since no password that was read before is 0.
fn readings(text: &[u8], times: u64) -> u64 {
    let mut p = 1;
    for _ in 0..times {
        p = said_from(text, if p == 0 { 1 } else { 0 }).password;
    }
    p
}

// The one hash that an offer does, on a password and then on what it gave.
fn hashes(algorithm: Algorithm, times: u64) -> u64 {
    let mut p = 0;
    for _ in 0..times {
        p = step(algorithm, p);
    }
    p
}

// How long the newest of the older seeds is, in the room of the last account; 0 where there is none.
fn newest_len(older: &[u8; 3808], accounts: u16) -> u8 {
    match accounts {
        1 => older[0],
        32 => older[31 * 119],
        _ => 0,
    }
}

// What the last table has; the last number after a renewal is `newest`.
fn print_left(to: io::Stdout, last: Table, renewed: bool, newest: u8) -> io::Result<()> {
    let [first, _, _, fourth] = last.ports;
    let len = last.lines.len;
    let turn = turn_in(last.lines, 0);
    let fourth_turn = turn_in(last.lines, 3);
    let wrong = first.wrong;
    let shut_or_seed = if renewed {
        u16::from(newest)
    } else {
        fourth.shut
    };
    println!(to; "{len} {turn} {fourth_turn} {wrong} {shut_or_seed}")
}

// What is repeated: with how many accounts, the ports in line for the last of them, or for the last four.
fn measure(to: io::Stdout, letter: u8, accounts: u16, text: &[u8], times: u64) -> io::Result<()> {
    let algorithm = number_of(algorithm_of(letter));
    let start = prepared(letter, table_of(algorithm, accounts), accounts);
    let right = password_at(algorithm, 99);
    let mut older = [0u8; 3808];
    let last = repeat(letter, start, &mut older, accounts, text, right, times);
    print_left(
        to,
        last,
        call_of(letter) == Call::Renewal,
        newest_len(&older, accounts),
    )
}

fn print_password(to: io::Stdout, p: u64) -> io::Result<()> {
    println!(to; "{p:016x}")
}

fn run(to: io::Stdout, letter: u8, accounts: u16, times: u64) -> io::Result<()> {
    let text = text_of(letter);
    match letter {
        b's' | b'S' => print_password(to, hashes(algorithm_of(letter), times)),
        b'a' | b'b' => print_password(to, readings(text, times)),
        _ => measure(to, letter, accounts, text, times),
    }
}

fn main(rt: HostRuntime) -> io::Result<()> {
    // No Vec: a heap's functions of C would be assumed too.
    let mut input = [0u8; 6];
    let mut room = &mut input[..];
    let n = io::copy(&mut rt.stdin().take(6), &mut room)?;
    let [letter, accounts, thousands @ ..] = &input[..(n as usize).min(6)] else {
        return Ok(());
    };
    let Some(thousands) = text::counts::read_count(thousands) else {
        return Ok(());
    };
    let accounts = match accounts {
        b'0' => 0,
        b'1' => 1,
        _ => 32,
    };
    run(rt.stdout(), *letter, accounts, u64::from(thousands) * 1000)
}
