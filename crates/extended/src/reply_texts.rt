// Reading the text of a reply, plain or extended, to the password that it says or to a renewal. No table is looked at. Document 02, R-6 and R-7.
ghost use Rattle.std.specs.Prelude.{◌≡◌, ◌+◌, ◌≤◌, length};
ghost use Rattle.extended.specs.ReplyTexts as spec;
ghost use Rattle.extended.specs.ReplyTexts.{Said};

use crate::parameters::{Parameters, values_in};
use crate::parts::{after, colons, part};
use crate::reply_types::{ReplyType, read_type};
use hex_text::read_hex;
use refusal::{Reading, Refusal};
use reply::read_six;

// A password to log in; or a renewal, with new values as they stand in the text (the algorithm by its number, or 0; the count, or 0; where the seed
// stands), the new password and the present one. The values are refused where they are offered, and not here.
#[derive(Clone, Copy)]
pub enum ReplyText {
    Login(u64),
    Renewal {
        algorithm: u32,
        count: u16,
        start: usize,
        len: usize,
        new: u64,
        present: u64,
    },
}

// The password in a part of that type.
fn read_part(kind: ReplyType, part: &[u8]) -> Reading
    ensures { result ≡ spec.password_by kind part.now }
{
    if kind.is_hex() {
        return read_hex(part);
    }
    read_six(part)
}

// How many parts a type has, less 1.
fn colons_of(kind: ReplyType) -> usize
    ensures { result ≡ spec.colons_of kind }
{
    if kind.is_init() { 3 } else { 1 }
}

// Where the seed stands in a text whose parameters start at a place; where there is none, the start, as the definition has it: C is handed the number.
fn seed_start(at: usize, values: Parameters) -> usize
    requires { (at ≤ 259) × (values.start ≤ 256) }
    ensures { result ≡ spec.seed_start at values }
{
    if values.len == 0 {
        return 0;
    }
    at + values.start
}

// A login with the password that was read, or why it wasn't.
fn login_of(present: Reading) -> Result<ReplyText, Refusal>
    ensures { result ≡ spec.read_to (Said.Login present) }
{
    Ok(ReplyText::Login(present?))
}

// A renewal with the values that start at a place: "31 to 33 for the new password and after it for the present one", and nothing for the values.
fn renewal_of(
    at: usize,
    values: Parameters,
    new: Reading,
    present: Reading,
) -> Result<ReplyText, Refusal>
    requires { (at ≤ 259) × (values.start ≤ 256) }
    ensures { result ≡ spec.read_to (spec.renewal_said at values new present) }
{
    let new = new?;
    let present = present?;
    Ok(ReplyText::Renewal {
        algorithm: values.algorithm,
        count: values.count,
        start: seed_start(at, values),
        len: values.len,
        new,
        present,
    })
}

// What a renewal is read to.
fn renewal_in(text: &[u8], kind: ReplyType) -> Result<ReplyText, Refusal>
    requires { length text.now ≤ 256 }
    ensures { result ≡ spec.read_to (spec.renewal_in kind text.now) }
{
    let present_at = after(text, 0);
    let parameters_at = after(text, present_at);
    let new_at = after(text, parameters_at);
    let values = values_in(part(text, parameters_at));
    let new = read_part(kind, part(text, new_at));
    let present = read_part(kind, part(text, present_at));
    renewal_of(parameters_at, values, new, present)
}

// What a text of that type is read to.
fn typed_in(text: &[u8], kind: ReplyType) -> Result<ReplyText, Refusal>
    requires { length text.now ≤ 256 }
    ensures { result ≡ spec.read_to (spec.typed_in kind text.now) }
{
    if kind.is_init() {
        return renewal_in(text, kind);
    }
    login_of(read_part(kind, part(text, after(text, 0))))
}

// What a text is read to. Over 256 bytes every text is 30, a plain one from 129 on, so that no more are looked at. One without a colon is plain; one with
// a colon is checked for 34 and 35.
pub fn read(text: &[u8]) -> Result<ReplyText, Refusal>
    ensures { result ≡ spec.reply_text_of text.now }
{
    if 256 < text.len() {
        return Err(Refusal::ReplyLong);
    }
    let found = colons(text);
    if found == 0 {
        return login_of(reply::read(text));
    }
    let kind = read_type(part(text, 0)).ok_or(Refusal::TypeUnknown)?;
    if found != colons_of(kind) {
        return Err(Refusal::PartsWrong);
    }
    typed_in(text, kind)
}

// The seed of a renewal, as the part of its text where it stands. What would lie past the text's end isn't there.
// Tested by hand: the library's `get` doesn't say where the part lies, which is promised here.
pub fn seed_part(text: &[u8], start: usize, len: usize) -> &[u8]
    ensures { (result.now ≡ spec.seed_part text.now start len) × (result.ref_ptr.0 ≡ text.entry.ref_ptr.0)
        × (result.ref_ptr.1 ≡ spec.seed_place text.now start + text.entry.ref_ptr.1) }
{
    if text.len() < start {
        return &text[..0];
    }
    if text.len() - start < len {
        return &text[start..];
    }
    let end = start + len;
    &text[start..end]
}
