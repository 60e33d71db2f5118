// A password as sixteen hex digits, written and read. Document 01, 'Six words and hex'.
#![tactic(auto)]

ghost use Rattle.std.specs.Prelude.{◌≡◌};
ghost use Rattle.text.specs.Put.{Writes};
ghost use Rattle.text.specs.Scan.{unspaced};
ghost use Rattle.hex_text.specs.Hex.{hex_of, hex_reading};

use refusal::{Reading, Refusal, Written};
use text::kinds::is_white;
use text::put::spell;
use text::scan::digit_value;

// The password as 16 hex digits at the front of the buffer.
pub fn write_hex(password: u64, buf: &mut [u8]) -> Written
    ensures { Writes (hex_of password) buf.old buf.new result }
{
    if buf.len() < 16 {
        return Err(Refusal::BufferShort);
    }
    Ok(spell(buf, password, 16, 16))
}

// The password whose sixteen digits are the text without its white space.
pub fn read_hex(s: &[u8]) -> Reading
    ensures { result ≡ hex_reading (unspaced s.now) }
{
    let mut value: u64 = 0;
    let mut n: usize = 0;
    for b in s {
        if is_white(*b) {
            continue;
        }
        let Some(d) = digit_value(*b) else {
            return Err(Refusal::ReplyUnread);
        };
        if n == 16 {
            return Err(Refusal::ReplyUnread);
        }
        value = value * 16 + u64::from(d);
        n += 1;
    }
    if n == 16 {
        return Ok(value);
    }
    Err(Refusal::ReplyUnread)
}
