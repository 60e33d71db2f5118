// What a pass-phrase and a seed may be, refusals 10 and 11, 23 and 24; and the seed in lower case.
ghost use Rattle.std.specs.Prelude.{◌≡◌, map, ◌≤◌, length};
ghost use Rattle.text.specs.Put.{Put};
ghost use Rattle.text.specs.Kinds.{lower_of};
ghost use Rattle.password.specs.PhraseAndSeed.{phrase_checked, plain, seed_checked};

use refusal::{Checked, Refusal};

pub fn check_phrase(phrase: &[u8]) -> Checked
    ensures { result ≡ phrase_checked phrase.now }
{
    if phrase.len() < 10 {
        return Err(Refusal::PhraseShort);
    }
    if 63 < phrase.len() {
        return Err(Refusal::PhraseLong);
    }
    Ok(())
}

// Whether a text is letters and digits only.
fn is_plain(s: &[u8]) -> bool
    ensures { result ≡ plain s.now }
{
    s.iter().all(u8::is_ascii_alphanumeric)
}

pub fn check_seed(seed: &[u8]) -> Checked
    ensures { result ≡ seed_checked seed.now }
{
    if seed.len() < 1 {
        return Err(Refusal::SeedLength);
    }
    if 16 < seed.len() {
        return Err(Refusal::SeedLength);
    }
    if is_plain(seed) {
        return Ok(());
    }
    Err(Refusal::SeedCharacter)
}

// The seed in lower case at the front of the buffer.
pub fn put_lower(buf: &mut [u8], seed: &[u8]) -> usize
    requires { length seed.now ≤ length buf.old }
    ensures { Put (map lower_of seed.now) buf.old buf.new result }
{
    let n = text::put::copy(buf, seed);
    buf[..n].make_ascii_lowercase();
    n
}
