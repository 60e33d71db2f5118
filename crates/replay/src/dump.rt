// The table on a line: accounts by rising id, each with its seeds, its line and turn, and the ports.
use crate::printing::Hex;
use accounts::Account;
use line::Lines;
use password::algorithm::number_of;
use port::Port;
use std::fmt;
use table::Table;

// A table, and the older seeds of its accounts.
#[derive(Clone, Copy)]
pub struct Dump<'a> {
    pub table: &'a Table,
    pub older: &'a [u8; 3808],
}

impl fmt::Display for Dump<'_> {
    fn fmt<W: fmt::Write>(&self, f: &mut fmt::Formatter<W>) -> fmt::Result {
        let Dump { table, older } = *self;
        write!(f, "A=")?;
        put_accounts(f, table, older)?;
        write!(f, " P=")?;
        put_ports(f, &table.ports)
    }
}

// The account with the least id above `last`, and its room.
fn next_account(table: &Table, last: u16) -> Option<(usize, &Account)> {
    let rooms = table.rooms.iter().enumerate();
    rooms
        .filter(|(_, room)| last < room.id)
        .min_by_key(|(_, room)| room.id)
}

// `-` where there are none.
fn put_accounts<W: fmt::Write>(
    f: &mut fmt::Formatter<W>,
    table: &Table,
    older: &[u8],
) -> fmt::Result {
    let mut last = 0;
    let mut before = "";
    for _ in 0..32 {
        let Some((room, account)) = next_account(table, last) else {
            break;
        };
        write!(f, "{before}")?;
        put_account(f, account)?;
        put_older(f, older, room, account.older_count)?;
        write!(f, ":")?;
        put_line(f, &table.lines, room)?;
        last = account.id;
        before = ",";
    }
    if last == 0 { write!(f, "-") } else { Ok(()) }
}

// What an account has, up to its present seed. No call makes a longer one than its room.
fn put_account<W: fmt::Write>(f: &mut fmt::Formatter<W>, account: &Account) -> fmt::Result {
    let id = account.id;
    let algorithm = number_of(account.algorithm);
    let count = account.count;
    let password = account.password;
    let seed = Hex(account.seed.get(..account.len).unwrap_or(&account.seed));
    write!(f, "{id}:{algorithm}:{count}:{password:016x}:{seed}")
}

// The n older seeds of the account in that room, newest first: each with its length before it in a place of 17 bytes. No call makes a longer one.
fn put_older<W: fmt::Write>(
    f: &mut fmt::Formatter<W>,
    older: &[u8],
    room: usize,
    n: u8,
) -> fmt::Result {
    let kept = older.chunks(119).nth(room).unwrap_or(&[]);
    for place in kept.chunks(17).take(n as usize) {
        if let [len, seed @ ..] = place {
            let seed = Hex(seed.get(..*len as usize).unwrap_or(seed));
            write!(f, "/{seed}")?;
        }
    }
    Ok(())
}

// The line of the account in that room, front first, and the turn of its front port; 0 where nobody waits.
fn put_line<W: fmt::Write>(f: &mut fmt::Formatter<W>, lines: &Lines, room: usize) -> fmt::Result {
    let places = lines.places.iter().take(lines.len);
    let mut line = places.filter(|place| (place.room % 32) as usize == room);
    let Some(front) = line.next() else {
        return write!(f, "-:0");
    };
    let port = front.port;
    write!(f, "{port}")?;
    for place in line {
        let port = place.port;
        write!(f, ".{port}")?;
    }
    let turn = front.turn;
    write!(f, ":{turn}")
}

fn put_ports<W: fmt::Write>(f: &mut fmt::Formatter<W>, ports: &[Port; 4]) -> fmt::Result {
    let mut before = "";
    for port in ports {
        let wrong = port.wrong;
        let shut = port.shut;
        write!(f, "{before}{wrong}:{shut}")?;
        before = ",";
    }
    Ok(())
}
