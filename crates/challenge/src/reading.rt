// Reading a challenge, from left to right.
ghost use Rattle.std.specs.Prelude.{◌≡◌, ℕ, ◌+◌, take};
ghost use Rattle.text.specs.Tests.{same as same_text};
ghost use Rattle.challenge.specs.Challenges as spec;
ghost use Rattle.challenge.specs.Inside as inside;

use crate::place::Place;
use password::algorithm::Algorithm;
use password::algorithm_names::read_name;
use password::phrase_and_seed::check_seed;
use refusal::Refusal;
use text::counts::read_count;
use text::scan::same;

// The four bytes that every challenge starts with.
pub const OPENING: [u8; 4] = *b"otp-";

// What a challenge says: its algorithm, its count, where in its bytes the seed stands, how many bytes were used, and whether it has the mark `ext`: who
// wrote it takes extended replies.
#[derive(Clone, Copy)]
pub struct Challenge {
    pub algorithm: Algorithm,
    pub count: u32,
    pub start: usize,
    pub len: usize,
    pub used: usize,
    pub ext: bool,
}

// Whether the text starts with the four bytes.
fn is_opened(text: &[u8]) -> bool
    ensures { result ≡ same_text (take 4 text.now) spec.opening }
{
    text.starts_with(&OPENING)
}

// Whether a token is the mark: `ext`, alone or with a comma list.
fn is_mark(t: &[u8]) -> bool
    ensures { result ≡ spec.is_mark t.now }
{
    same(t, b"ext") | t.starts_with(b"ext,")
}

// Where the mark behind a seed ends, if there is one, by where the seed ends. Where the seed is ended by a newline there is none, since no token starts
// with that.
fn mark_end(seed_end: Place) -> Option<usize>
    ensures { (start : ℕ) → seed_end.entry.at ≡ spec.end_of seed_end.entry.text.now start → result ≡ inside.mark_end seed_end.entry.text.now start }
{
    let (mark, end) = seed_end.past_blanks().token_and_end();
    if is_mark(mark) & end.is_terminated() {
        Some(end.at)
    } else {
        None
    }
}

// The seed that starts at a place, and the byte after it: steps 4 and 5, once algorithm and count are known.
fn seed_from(start: Place, algorithm: Algorithm, count: u32) -> Result<Challenge, Refusal>
    ensures { result ≡ inside.seed_from start.entry.text.now algorithm count start.entry.at }
{
    let (seed, end) = start.token_and_end();
    check_seed(seed)?;
    if !end.is_terminated() {
        return Err(Refusal::SeedUnended);
    }
    let mark = mark_end(end);
    Ok(Challenge {
        algorithm,
        count,
        start: start.at,
        len: seed.len(),
        used: mark.unwrap_or(end.at) + 1,
        ext: mark.is_some(),
    })
}

pub fn read(text: &[u8]) -> Result<Challenge, Refusal>
    ensures { result ≡ spec.challenge_of text.now }
{
    if !is_opened(text) {
        return Err(Refusal::OpeningWrong);
    }
    let name_at = Place { text, at: 4 };
    let (name, name_end) = name_at.token_and_end();
    let algorithm = read_name(name).ok_or(Refusal::AlgorithmUnknown)?;
    let (digits, count_end) = name_end.past_blanks().token_and_end();
    let count = read_count(digits).ok_or(Refusal::CountUnread)?;
    seed_from(count_end.past_blanks(), algorithm, count)
}

// The seed, as the part of the text where it stands; after a refusal the empty part at the start.
pub fn seed_of(text: &[u8]) -> &[u8]
    ensures { (result.now ≡ spec.seed_of text.now) × (result.ref_ptr.0 ≡ text.entry.ref_ptr.0)
        × (result.ref_ptr.1 ≡ spec.start_of (spec.challenge_of text.now) + text.entry.ref_ptr.1) }
{
    match read(text) {
        Ok(challenge) => {
            let end = challenge.start + challenge.len;
            &text[challenge.start..end]
        }
        Err(_) => &text[..0],
    }
}
