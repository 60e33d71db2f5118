// The parameters of an `init` reply: algorithm, count and seed, as in `md5 499 ke1235`.
ghost use Rattle.std.specs.Prelude.{◌≡◌, ℕ, ◌+◌, ◌<◌, ◌≤◌, true, false, length, slice_index, EachIndex, MatchOption};
ghost use Rattle.text.specs.Kinds.{is_white};
ghost use Rattle.password.specs.Algorithm.{named};
ghost use Rattle.extended.specs.Parameters as spec;

use password::algorithm::number_of;
use password::algorithm_names::read_name;
use text::counts::read_count;
use text::kinds::{Kind, is_white};
use text::scan::{run, stretch_at};

// The algorithm's number, the count, and where in the part the seed stands. What isn't an algorithm, or isn't a count, is 0:
// numbers, since they are handed to C, and refused where they are offered.
#[derive(Clone, Copy)]
pub struct Parameters {
    pub algorithm: u32,
    pub count: u16,
    pub start: usize,
    pub len: usize,
}

// Where the word after the one at a place starts.
fn next_word(part: &[u8], at: usize) -> usize
    requires { at ≤ length part.now }
    ensures { (result ≡ spec.word_after part.now at) × (result ≤ length part.now) }
{
    let end = at + run(part, at, Kind::Solid);
    end + run(part, end, Kind::White)
}

// The number of the algorithm with that name; 0 where there is none, as C is told: reading refuses nothing of a renewal.
fn algorithm_number(name: &[u8]) -> u32
    ensures { result ≡ spec.name_number (named name.now) }
{
    read_name(name).map_or(0, number_of)
}

// The count that a word is; 0 where it is none, likewise.
fn count_in(word: &[u8]) -> u16
    ensures { result ≡ spec.count_in word.now }
{
    read_count(word).unwrap_or(0) as u16
}

// Where the last byte of a text stands that isn't white space.
fn last_solid(s: &[u8]) -> Option<usize>
    ensures { MatchOption result (EachIndex s.now (λ k. is_white (slice_index s.now k) ≡ true))
        (λ i. (i < length s.now) × (is_white (slice_index s.now i) ≡ false)
        × ((k : ℕ) → i < k → k < length s.now → is_white (slice_index s.now k) ≡ true)) }
{
    s.iter().rposition(|b| !is_white(*b))
}

// How many bytes of a text there are up to that byte.
fn trimmed(s: &[u8]) -> usize
    ensures { (result ≡ spec.trimmed s.now) × (result ≤ length s.now) }
{
    match last_solid(s) {
        Some(last) => last + 1,
        None => 0,
    }
}

pub fn values_in(part: &[u8]) -> Parameters
    ensures { result ≡ spec.parameters_of part.now }
{
    let name_at = run(part, 0, Kind::White);
    let count_at = next_word(part, name_at);
    let start = next_word(part, count_at);
    let algorithm = algorithm_number(stretch_at(part, name_at, Kind::Solid));
    let count = count_in(stretch_at(part, count_at, Kind::Solid));
    Parameters {
        algorithm,
        count,
        start,
        len: trimmed(&part[start..]),
    }
}
