// Answers as C sees them: `refusal` is 0 or the paper's number, and the values are 0 beside a refusal.
ghost use Rattle.std.specs.Prelude.{◌≡◌, cond};
ghost use Rattle.extended.specs.ReplyTexts.{with_read, a_login};
ghost use Rattle.panel.specs.Answers.{challenge_row, reading_row, reply_row, written_row};

use challenge::reading::Challenge;
use extended::reply_texts::ReplyText;
use password::algorithm::number_of;
use refusal::{Reading, Refusal, Written, listing_of};

#[repr(C)]
#[derive(Clone, Copy)]
pub struct LiftReading {
    pub password: u64,
    pub refusal: u32,
    pub marks: u32, // 1 to 63 with refusal 31, else 0
}

#[repr(C)]
#[derive(Clone, Copy)]
pub struct LiftReply {
    pub password: u64,
    pub new_password: u64,
    pub seed_at: usize,
    pub seed_len: usize,
    pub init: u32, // 1 for a renewal; 0 for a login, whose password stands alone
    pub algorithm: u32, // by its number
    pub count: u32,
    pub refusal: u32,
    pub marks: u32, // 1 to 63 with refusal 31, else 0
}

#[repr(C)]
#[derive(Clone, Copy)]
pub struct LiftChallenge {
    pub seed_at: usize,
    pub seed_len: usize,
    pub used: usize,
    pub count: u32,
    pub algorithm: u32, // by its number
    pub ext: u32, // 1 with the mark, else 0
    pub refusal: u32,
}

#[repr(C)]
#[derive(Clone, Copy)]
pub struct LiftWritten {
    pub written: usize,
    pub refusal: u32,
}

pub fn reading_row(reading: Reading) -> LiftReading
    ensures { result ≡ reading_row reading }
{
    match reading {
        Ok(password) => LiftReading {
            password,
            refusal: 0,
            marks: 0,
        },
        Err(why) => {
            let listing = listing_of(why);
            LiftReading {
                password: 0,
                refusal: listing.0,
                marks: listing.1,
            }
        }
    }
}

// The row of a reply that is no renewal, by the reading of its password.
fn login_row(reading: Reading) -> LiftReply
    ensures { result ≡ reply_row (with_read reading a_login) }
{
    let row = reading_row(reading);
    LiftReply {
        password: row.password,
        new_password: 0,
        seed_at: 0,
        seed_len: 0,
        init: 0,
        algorithm: 0,
        count: 0,
        refusal: row.refusal,
        marks: row.marks,
    }
}

pub fn reply_row(reply: Result<ReplyText, Refusal>) -> LiftReply
    ensures { result ≡ reply_row reply }
{
    match reply {
        Ok(ReplyText::Login(password)) => login_row(Ok(password)),
        Ok(
            ReplyText::Renewal {
                algorithm,
                count,
                start,
                len,
                new,
                present,
            },
        ) => LiftReply {
            password: present,
            new_password: new,
            seed_at: start,
            seed_len: len,
            init: 1,
            algorithm,
            count: count as u32,
            refusal: 0,
            marks: 0,
        },
        Err(why) => login_row(Err(why)),
    }
}

pub fn written_row(written: Written) -> LiftWritten
    ensures { result ≡ written_row written }
{
    match written {
        Ok(written) => LiftWritten {
            written,
            refusal: 0,
        },
        Err(why) => LiftWritten {
            written: 0,
            refusal: listing_of(why).0,
        },
    }
}

// 1 for yes.
fn flag(set: bool) -> u32
    ensures { result ≡ cond set 1 0 }
{
    if set { 1 } else { 0 }
}

pub fn challenge_row(challenge: Result<Challenge, Refusal>) -> LiftChallenge
    ensures { result ≡ challenge_row challenge }
{
    match challenge {
        Ok(read) => LiftChallenge {
            seed_at: read.start,
            seed_len: read.len,
            used: read.used,
            count: read.count,
            algorithm: number_of(read.algorithm),
            ext: flag(read.ext),
            refusal: 0,
        },
        Err(why) => LiftChallenge {
            seed_at: 0,
            seed_len: 0,
            used: 0,
            count: 0,
            algorithm: 0,
            ext: 0,
            refusal: listing_of(why).0,
        },
    }
}
