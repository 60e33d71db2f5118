// The calls that need no table: passwords, replies, challenges, cards.
use crate::lending::writer;
use crate::names::{Generation, NewReply, TextCall};
use crate::printing::{Hex, Password, Said, refused, replied};
use extended::reply_texts::ReplyText;
use password::algorithm::number_of;
use refusal::Written;
use std::io;

// The digest that a function writes into the room for it.
fn digest<F: FnOnce(&mut [u8]) -> Written>(
    to: io::Stdout,
    room: &mut [u8],
    write: F,
) -> io::Result<()>
    requires { F.IsAlwaysCallable write }
{
    let result = write(room);
    replied(to, result.map(|_| Hex(room)))
}

fn generated(to: io::Stdout, it: Generation) -> io::Result<()> {
    let count = u32::from(it.count);
    let result = generator::generate(it.algorithm, it.phrase, it.seed, count);
    replied(to, result.map(Password))
}

fn challenge_read(to: io::Stdout, text: &[u8]) -> io::Result<()> {
    match challenge::reading::read(text) {
        Ok(read) => {
            let number = number_of(read.algorithm);
            let mark = u8::from(read.ext);
            println!(to;
                "ok {number} {} {} {} {} {mark}",
                read.count, read.start, read.len, read.used
            )
        }
        Err(why) => refused(to, why),
    }
}

fn write_reply(it: NewReply, lent: &mut [u8]) -> Written {
    let values = it.values;
    extended::reply_writer::write(
        it.kind,
        it.password,
        values.algorithm,
        u32::from(values.count),
        values.seed,
        values.password,
        lent,
    )
}

fn program(to: io::Stdout, stdin: &[u8]) -> io::Result<()> {
    let mut stdout = [0u8; 5148];
    let n = cards::printed::answer(stdin, &mut stdout);
    println!(to; "ok {}", Hex(&stdout[..n]))
}

pub fn answer(to: io::Stdout, call: TextCall) -> io::Result<()> {
    match call {
        TextCall::Md5(data) => digest(to, &mut [0u8; 16], |buf| {
            md5_hash::digest::digest(data, buf)
        }),
        TextCall::Sha1(data) => digest(to, &mut [0u8; 20], |buf| {
            sha1_hash::digest::digest(data, buf)
        }),
        TextCall::Generate(it) => generated(to, it),
        TextCall::Words { password, room } => writer(to, room, |lent| {
            sixwords::spelling::write_words(password, lent)
        }),
        TextCall::Hex { password, room } => {
            writer(to, room, |lent| hex_text::write_hex(password, lent))
        }
        TextCall::Read(text) => {
            replied(
                to,
                extended::reply_texts::read(text).map(|read| Said { read, text }),
            )
        }
        TextCall::ReadPlain(text) => {
            replied(
                to,
                reply::read(text).map(|p| Said {
                    read: ReplyText::Login(p),
                    text,
                }),
            )
        }
        TextCall::Challenge(text) => challenge_read(to, text),
        TextCall::WriteChallenge(it) => writer(to, it.room, |lent| {
            challenge::writing::write(it.algorithm, it.seed, u32::from(it.count), lent)
        }),
        TextCall::Card(it) => writer(to, it.room, |lent| {
            cards::write_card(it.phrase, it.challenge, u32::from(it.lines), lent)
        }),
        TextCall::Program(stdin) => program(to, stdin),
        TextCall::WriteReply(it) => writer(to, it.room, |lent| write_reply(it, lent)),
    }
}
