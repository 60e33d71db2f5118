// What C links (include/lift.h): the functions of `panel` under their names, each with its clauses.
#![tactic(auto)]

ghost use Rattle.block.specs.Digest.{digest_of};
ghost use Rattle.cards.specs.Cards.{card_of, card_written};
ghost use Rattle.challenge.specs.Challenges.{challenge_of, text_by_number, challenge_written};
ghost use Rattle.digests.specs.Md5.{md5};
ghost use Rattle.digests.specs.Sha1.{sha1};
ghost use Rattle.extended.specs.ReplyTexts.{reply_text_of};
ghost use Rattle.extended.specs.ReplyWriting.{extended_written, text_by_numbers};
ghost use Rattle.hex_text.specs.Hex.{hex_of};
ghost use Rattle.panel.specs.Answers.{challenge_row, reading_row, reply_row, Reported};
ghost use Rattle.password.specs.Password.{generated, number_of, bytes_of};
ghost use Rattle.reply.specs.Reply.{reading_of};
ghost use Rattle.sixwords.specs.Spelling.{words_of};
ghost use Rattle.text.specs.Put.{written_of};
ghost use Rattle.std.specs.Prelude.{length, ◌≡◌};

use panel::{LiftChallenge, LiftReading, LiftReply, LiftWritten};

// MD5, SHA-1 and the generator.

#[unsafe(no_mangle)]
pub extern "C" fn lift_md5(text: &[u8], digest: &mut [u8]) -> LiftWritten
    ensures { Reported (digest_of md5 text.now (length digest.old))
        (md5 text.now) digest.old digest.new result }
{
    panel::lift_md5(text, digest)
}

#[unsafe(no_mangle)]
pub extern "C" fn lift_sha1(text: &[u8], digest: &mut [u8]) -> LiftWritten
    ensures { Reported (digest_of sha1 text.now (length digest.old))
        (sha1 text.now) digest.old digest.new result }
{
    panel::lift_sha1(text, digest)
}

#[unsafe(no_mangle)]
pub extern "C" fn lift_password(
    algorithm: u32,
    phrase: &[u8],
    seed: &[u8],
    count: u32,
) -> LiftReading
    ensures { result ≡ reading_row (generated algorithm phrase.now seed.now count) }
{
    panel::lift_password(algorithm, phrase, seed, count)
}

// Replies: reading a plain one, or one of either kind; writing one as hex, as words or as an extended reply; and a password's eight bytes.

#[unsafe(no_mangle)]
pub extern "C" fn lift_read_plain(text: &[u8]) -> LiftReading
    ensures { result ≡ reading_row (reading_of text.now) }
{
    panel::lift_read_plain(text)
}

#[unsafe(no_mangle)]
pub extern "C" fn lift_read_reply(text: &[u8]) -> LiftReply
    ensures { result ≡ reply_row (reply_text_of text.now) }
{
    panel::lift_read_reply(text)
}

#[unsafe(no_mangle)]
pub extern "C" fn lift_write_hex(password: u64, buf: &mut [u8]) -> LiftWritten
    ensures { Reported (written_of (length buf.old) (hex_of password)) (hex_of password) buf.old buf.new result }
{
    panel::lift_write_hex(password, buf)
}

#[unsafe(no_mangle)]
pub extern "C" fn lift_write_words(password: u64, buf: &mut [u8]) -> LiftWritten
    ensures { Reported (written_of (length buf.old) (words_of password)) (words_of password) buf.old buf.new result }
{
    panel::lift_write_words(password, buf)
}

// By the type's number: 1 hex, 2 word, 3 init-hex, 4 init-word. With the first two what belongs to a renewal isn't looked at.
#[unsafe(no_mangle)]
pub extern "C" fn lift_write_extended(
    kind: u32,
    password: u64,
    algorithm: u32,
    count: u32,
    seed: &[u8],
    new_password: u64,
    buf: &mut [u8],
) -> LiftWritten
    ensures { Reported (extended_written kind password algorithm count seed.now new_password (length buf.old))
        (text_by_numbers kind password algorithm count seed.now new_password) buf.old buf.new result }
{
    panel::lift_write_extended(kind, password, algorithm, count, seed, new_password, buf)
}

#[unsafe(no_mangle)]
pub extern "C" fn lift_password_of(bytes: &[u8; 8]) -> u64
    ensures { result ≡ number_of bytes.now }
{
    panel::lift_password_of(bytes)
}

#[unsafe(no_mangle)]
pub extern "C" fn lift_bytes_of(password: u64, bytes: &mut [u8; 8])
    ensures { bytes.new ≡ bytes_of password }
{
    panel::lift_bytes_of(password, bytes);
}

// Challenges: reading one, and writing one.

#[unsafe(no_mangle)]
pub extern "C" fn lift_read_challenge(text: &[u8]) -> LiftChallenge
    ensures { result ≡ challenge_row (challenge_of text.now) }
{
    panel::lift_read_challenge(text)
}

#[unsafe(no_mangle)]
pub extern "C" fn lift_write_challenge(
    algorithm: u32,
    seed: &[u8],
    count: u32,
    buf: &mut [u8],
) -> LiftWritten
    ensures { Reported (challenge_written algorithm seed.now count (length buf.old))
        (text_by_number algorithm seed.now count) buf.old buf.new result }
{
    panel::lift_write_challenge(algorithm, seed, count, buf)
}

// The card.

#[unsafe(no_mangle)]
pub extern "C" fn lift_write_card(
    phrase: &[u8],
    challenge: &[u8],
    lines: u32,
    buf: &mut [u8],
) -> LiftWritten
    ensures { Reported (card_written phrase.now challenge.now lines (length buf.old))
        (card_of phrase.now challenge.now lines) buf.old buf.new result }
{
    panel::lift_write_card(phrase, challenge, lines, buf)
}
