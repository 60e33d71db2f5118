// The functions that the panel firmware calls from C (include/lift.h), for crates: numbers and byte slices only. `panel_c` exports them.
// Each is a thin cover of a proved function, with its answer laid out as a C struct.
#![tactic(auto)]

ghost use Rattle.block.specs.Digest.{digest_of};
ghost use Rattle.cards.specs.Cards.{card_of, card_written};
ghost use Rattle.challenge.specs.Challenges.{challenge_of, text_by_number, challenge_written};
ghost use Rattle.digests.specs.Md5.{md5};
ghost use Rattle.digests.specs.Sha1.{sha1};
ghost use Rattle.extended.specs.ReplyTexts.{reply_text_of};
ghost use Rattle.extended.specs.ReplyWriting.{extended_written, text_by_numbers};
ghost use Rattle.hex_text.specs.Hex.{hex_of};
ghost use Rattle.panel.specs.Answers.{challenge_row, reading_row, reply_row, Reported};
ghost use Rattle.password.specs.Password.{generated, number_of, bytes_of};
ghost use Rattle.reply.specs.Reply.{reading_of};
ghost use Rattle.sixwords.specs.Spelling.{words_of};
ghost use Rattle.text.specs.Put.{written_of};
ghost use Rattle.std.specs.Prelude.{length, ◌≡◌};

use crate::structs::{challenge_row, reading_row, reply_row, written_row};
pub use crate::structs::{LiftChallenge, LiftReading, LiftReply, LiftWritten};

// Answers as C sees them.
mod structs;

// MD5, SHA-1 and the generator.

pub fn lift_md5(text: &[u8], digest: &mut [u8]) -> LiftWritten
    ensures { Reported (digest_of md5 text.now (length digest.old))
        (md5 text.now) digest.old digest.new result }
{
    written_row(md5_hash::digest::digest(text, digest))
}

pub fn lift_sha1(text: &[u8], digest: &mut [u8]) -> LiftWritten
    ensures { Reported (digest_of sha1 text.now (length digest.old))
        (sha1 text.now) digest.old digest.new result }
{
    written_row(sha1_hash::digest::digest(text, digest))
}

pub fn lift_password(algorithm: u32, phrase: &[u8], seed: &[u8], count: u32) -> LiftReading
    ensures { result ≡ reading_row (generated algorithm phrase.now seed.now count) }
{
    reading_row(generator::generate(algorithm, phrase, seed, count))
}

// Replies: reading a plain one, or one of either kind; writing one as hex, as words or as an extended reply; and a password's eight bytes.

pub fn lift_read_plain(text: &[u8]) -> LiftReading
    ensures { result ≡ reading_row (reading_of text.now) }
{
    reading_row(reply::read(text))
}

pub fn lift_read_reply(text: &[u8]) -> LiftReply
    ensures { result ≡ reply_row (reply_text_of text.now) }
{
    reply_row(extended::reply_texts::read(text))
}

pub fn lift_write_hex(password: u64, buf: &mut [u8]) -> LiftWritten
    ensures { Reported (written_of (length buf.old) (hex_of password)) (hex_of password) buf.old buf.new result }
{
    written_row(hex_text::write_hex(password, buf))
}

pub fn lift_write_words(password: u64, buf: &mut [u8]) -> LiftWritten
    ensures { Reported (written_of (length buf.old) (words_of password)) (words_of password) buf.old buf.new result }
{
    written_row(sixwords::spelling::write_words(password, buf))
}

// By the type's number: 1 hex, 2 word, 3 init-hex, 4 init-word. With the first two what belongs to a renewal isn't looked at.
pub fn lift_write_extended(
    kind: u32,
    password: u64,
    algorithm: u32,
    count: u32,
    seed: &[u8],
    new_password: u64,
    buf: &mut [u8],
) -> LiftWritten
    ensures { Reported (extended_written kind password algorithm count seed.now new_password (length buf.old))
        (text_by_numbers kind password algorithm count seed.now new_password) buf.old buf.new result }
{
    written_row(extended::reply_writer::write(
        kind,
        password,
        algorithm,
        count,
        seed,
        new_password,
        buf,
    ))
}

pub fn lift_password_of(bytes: &[u8; 8]) -> u64
    ensures { result ≡ number_of bytes.now }
{
    password::eight_bytes::number_of(*bytes)
}

pub fn lift_bytes_of(password: u64, bytes: &mut [u8; 8])
    ensures { bytes.new ≡ bytes_of password }
{
    *bytes = password::eight_bytes::bytes_of(password);
}

// Challenges: reading one, and writing one.

pub fn lift_read_challenge(text: &[u8]) -> LiftChallenge
    ensures { result ≡ challenge_row (challenge_of text.now) }
{
    challenge_row(challenge::reading::read(text))
}

pub fn lift_write_challenge(algorithm: u32, seed: &[u8], count: u32, buf: &mut [u8]) -> LiftWritten
    ensures { Reported (challenge_written algorithm seed.now count (length buf.old))
        (text_by_number algorithm seed.now count) buf.old buf.new result }
{
    written_row(challenge::writing::write(algorithm, seed, count, buf))
}

// The card.

pub fn lift_write_card(phrase: &[u8], challenge: &[u8], lines: u32, buf: &mut [u8]) -> LiftWritten
    ensures { Reported (card_written phrase.now challenge.now lines (length buf.old))
        (card_of phrase.now challenge.now lines) buf.old buf.new result }
{
    written_row(cards::write_card(phrase, challenge, lines, buf))
}
