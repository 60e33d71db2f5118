// The calls on the table.
use crate::dump::Dump;
use crate::lending::writer;
use crate::names::TableCall;
use crate::printing::{checked, ok, refused, replied};
use crate::script_words::Values;
use extended::reply_texts::{ReplyText, seed_part};
use password::eight_bytes::bytes_of;
use refusal::Checked;
use std::io;
use table::{Answered, Replied, Settled, Table};

// A table, and beside it the bytes for the older seeds of its accounts.
#[derive(Drop)]
pub struct Controller {
    table: Table,
    older: [u8; 3808],
}

impl Controller {
    // What the bytes for older seeds hold at the start doesn't matter.
    pub fn new() -> Controller {
        Controller {
            table: table::fresh(),
            older: [0xaa; 3808],
        }
    }

    // Keeps the table that a call handed back, and hands on what it answered. Two, since the crate `table` has a type for either answer.
    fn settled(&mut self, made: Settled) -> Checked {
        self.table = made.table;
        made.answer
    }

    fn answered(&mut self, made: Answered) -> Replied {
        self.table = made.table;
        made.answer
    }

    fn enrol(&mut self, id: u16, values: Values) -> Checked {
        let bytes = bytes_of(values.password);
        self.settled(login::enrol(
            self.table,
            id,
            values.algorithm,
            values.count,
            values.seed,
            &bytes,
        ))
    }

    fn offer_renewal(&mut self, port: u8, values: Values, present: u64) -> Replied {
        let made = login::offer_renewal(
            self.table,
            &mut self.older,
            port,
            values.algorithm,
            values.count,
            values.seed,
            values.password,
            present,
        );
        self.answered(made)
    }

    // What a text says is offered; a refusal is the answer.
    fn reply(&mut self, to: io::Stdout, port: u8, text: &[u8]) -> io::Result<()> {
        match extended::reply_texts::read(text) {
            Ok(ReplyText::Login(password)) => {
                replied(to, self.answered(login::offer(self.table, port, password)))
            }
            Ok(
                ReplyText::Renewal {
                    algorithm,
                    count,
                    start,
                    len,
                    new,
                    present,
                },
            ) => {
                let values = Values {
                    algorithm,
                    count,
                    seed: seed_part(text, start, len),
                    password: new,
                };
                replied(to, self.offer_renewal(port, values, present))
            }
            Err(why) => refused(to, why),
        }
    }

    fn renew(&mut self, to: io::Stdout, port: u8, values: Values, text: &[u8]) -> io::Result<()> {
        match reply::read(text) {
            Ok(present) => replied(to, self.offer_renewal(port, values, present)),
            Err(why) => refused(to, why),
        }
    }

    // On a table of its own: one that is put back into the controller at each tick is copied once more each time.
    fn tick(&mut self, n: u64) {
        let mut table = self.table;
        for _ in 0..n {
            table = login::tick(table);
        }
        self.table = table;
    }

    pub fn answer(&mut self, to: io::Stdout, call: TableCall) -> io::Result<()> {
        let table = self.table;
        match call {
            TableCall::New => {
                self.table = table::fresh();
                ok(to)
            }
            TableCall::Enrol { id, values } => checked(to, self.enrol(id, values)),
            TableCall::Remove { id } => checked(to, self.settled(login::remove(table, id))),
            TableCall::Join { port, id } => checked(to, self.settled(login::join(table, port, id))),
            TableCall::Leave { port } => checked(to, self.settled(login::leave(table, port))),
            TableCall::Challenge { port, room } => {
                writer(to, room, |lent| login::challenge(table, port, lent))
            }
            TableCall::Reply { port, text } => self.reply(to, port, text),
            TableCall::Renew { port, values, text } => self.renew(to, port, values, text),
            TableCall::Offer { port, password } => {
                replied(to, self.answered(login::offer(table, port, password)))
            }
            TableCall::OfferRenewal {
                port,
                values,
                present,
            } => replied(to, self.offer_renewal(port, values, present)),
            TableCall::Tick(n) => {
                self.tick(n);
                ok(to)
            }
            TableCall::Dump => println!(to;
                "ok {}",
                Dump {
                    table: &self.table,
                    older: &self.older,
                }
            ),
        }
    }
}
