// What a plain reply says, six words or sixteen hex digits, and its reader. Document 01, 'Six words and hex'.
#![tactic(auto)]

ghost use Rattle.std.specs.Prelude.{◌≡◌};
ghost use Rattle.reply.specs.Reply.{six_reading, reading_of};

use crate::known_words::read_words;
use crate::typed_words::six_words;
use hex_text::read_hex;
use refusal::{Reading, Refusal};

// The tokens of a reply as packed words of the dictionary.
mod typed_words;
// Six packed words looked up.
mod known_words;

// The password that six words say; what isn't six words is 33, and not tried as hex.
pub fn read_six(text: &[u8]) -> Reading
    ensures { result ≡ six_reading text.now }
{
    match six_words(text) {
        Some(words) => read_words(words),
        None => Err(Refusal::ReplyUnread),
    }
}

// The password that a plain reply says, in six words or in hex.
pub fn read(text: &[u8]) -> Reading
    ensures { result ≡ reading_of text.now }
{
    if 128 < text.len() {
        return Err(Refusal::ReplyLong);
    }
    match six_words(text) {
        Some(words) => read_words(words),
        None => read_hex(text),
    }
}
