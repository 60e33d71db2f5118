// The calls: what each is called, and which words it takes.
use crate::script_words::{Values, Words};

#[derive(Clone, Copy)]
pub enum Call<'a> {
    Text(TextCall<'a>),
    Table(TableCall<'a>),
}

// The calls that need no table.
#[derive(Clone, Copy)]
pub enum TextCall<'a> {
    Md5(&'a [u8]),
    Sha1(&'a [u8]),
    Generate(Generation<'a>),
    Words { password: u64, room: usize },
    Hex { password: u64, room: usize },
    Read(&'a [u8]),
    ReadPlain(&'a [u8]),
    Challenge(&'a [u8]),
    WriteChallenge(NewChallenge<'a>),
    Card(NewCard<'a>),
    Program(&'a [u8]),
    WriteReply(NewReply<'a>),
}

#[derive(Clone, Copy)]
pub struct Generation<'a> {
    pub algorithm: u32,
    pub phrase: &'a [u8],
    pub seed: &'a [u8],
    pub count: u16,
}

// A challenge to be written.
#[derive(Clone, Copy)]
pub struct NewChallenge<'a> {
    pub algorithm: u32,
    pub seed: &'a [u8],
    pub count: u16,
    pub room: usize,
}

// A card to be written.
#[derive(Clone, Copy)]
pub struct NewCard<'a> {
    pub phrase: &'a [u8],
    pub challenge: &'a [u8],
    pub lines: u16,
    pub room: usize,
}

// An extended reply to be written, of the type with that number.
#[derive(Clone, Copy)]
pub struct NewReply<'a> {
    pub kind: u32,
    pub password: u64,
    pub values: Values<'a>,
    pub room: usize,
}

// The calls on the table.
#[derive(Clone, Copy)]
pub enum TableCall<'a> {
    New,
    Enrol {
        id: u16,
        values: Values<'a>,
    },
    Remove {
        id: u16,
    },
    Join {
        port: u8,
        id: u16,
    },
    Leave {
        port: u8,
    },
    Challenge {
        port: u8,
        room: usize,
    },
    Reply {
        port: u8,
        text: &'a [u8],
    },
    Renew {
        port: u8,
        values: Values<'a>,
        text: &'a [u8],
    },
    Offer {
        port: u8,
        password: u64,
    },
    OfferRenewal {
        port: u8,
        values: Values<'a>,
        present: u64,
    },
    Tick(u64),
    Dump,
}

fn read_generation<'a>(words: &mut Words<'a>) -> Option<Generation<'a>> {
    Some(Generation {
        algorithm: words.algorithm()?,
        phrase: words.text()?,
        seed: words.text()?,
        count: words.short()?,
    })
}

fn read_challenge<'a>(words: &mut Words<'a>) -> Option<NewChallenge<'a>> {
    Some(NewChallenge {
        algorithm: words.algorithm()?,
        seed: words.text()?,
        count: words.short()?,
        room: words.room()?,
    })
}

fn read_card<'a>(words: &mut Words<'a>) -> Option<NewCard<'a>> {
    Some(NewCard {
        phrase: words.text()?,
        challenge: words.text()?,
        lines: words.short()?,
        room: words.room()?,
    })
}

// The types 3 and 4 are those of a renewal, which has new values; nobody looks at another's.
fn read_values<'a>(words: &mut Words<'a>, kind: u32) -> Option<Values<'a>> {
    match kind {
        3 | 4 => words.values(),
        _ => Some(Values::default()),
    }
}

fn read_reply<'a>(words: &mut Words<'a>) -> Option<NewReply<'a>> {
    let kind = words.reply_type()?;
    Some(NewReply {
        kind,
        password: words.password()?,
        values: read_values(words, kind)?,
        room: words.room()?,
    })
}

fn text_call<'a>(name: &[u8], words: &mut Words<'a>) -> Option<TextCall<'a>> {
    Some(match name {
        b"md5" => TextCall::Md5(words.text()?),
        b"sha1" => TextCall::Sha1(words.text()?),
        b"gen" => TextCall::Generate(read_generation(words)?),
        b"words" => TextCall::Words {
            password: words.password()?,
            room: words.room()?,
        },
        b"hex" => TextCall::Hex {
            password: words.password()?,
            room: words.room()?,
        },
        b"read" => TextCall::Read(words.text()?),
        b"readplain" => TextCall::ReadPlain(words.text()?),
        b"chal" => TextCall::Challenge(words.text()?),
        b"wchal" => TextCall::WriteChallenge(read_challenge(words)?),
        b"card" => TextCall::Card(read_card(words)?),
        b"prog" => TextCall::Program(words.text()?),
        b"wext" => TextCall::WriteReply(read_reply(words)?),
        _ => return None,
    })
}

// A call on a port that has the turn, or waits for it.
fn port_call<'a>(name: &[u8], words: &mut Words<'a>) -> Option<TableCall<'a>> {
    let port = words.port()?;
    Some(match name {
        b"join" => TableCall::Join {
            port,
            id: words.short()?,
        },
        b"leave" => TableCall::Leave { port },
        b"challenge" => TableCall::Challenge {
            port,
            room: words.room()?,
        },
        b"reply" => TableCall::Reply {
            port,
            text: words.text()?,
        },
        b"renew" => TableCall::Renew {
            port,
            values: words.values()?,
            text: words.text()?,
        },
        b"offer" => TableCall::Offer {
            port,
            password: words.password()?,
        },
        b"orenew" => TableCall::OfferRenewal {
            port,
            values: words.values()?,
            present: words.password()?,
        },
        _ => return None,
    })
}

fn table_call<'a>(name: &[u8], words: &mut Words<'a>) -> Option<TableCall<'a>> {
    Some(match name {
        b"new" => TableCall::New,
        b"enrol" => TableCall::Enrol {
            id: words.short()?,
            values: words.values()?,
        },
        b"remove" => TableCall::Remove { id: words.short()? },
        b"tick" => TableCall::Tick(words.ticks()?),
        b"dump" => TableCall::Dump,
        _ => return port_call(name, words),
    })
}

// The call that a line is, if its words are those of the call that its first word names. No name is in both lists.
pub fn call_in<'a>(line: &'a mut [u8]) -> Option<Call<'a>> {
    let mut words = Words::of(line);
    let name = words.word()?;
    let call = match text_call(name, &mut words) {
        Some(call) => Call::Text(call),
        None => Call::Table(table_call(name, &mut words)?),
    };
    words.are_read().then_some(call)
}
