// Cards: the lines of passwords that a person carries. Document 01, 'The card'.
#![tactic(auto)]

ghost use Rattle.std.specs.Prelude.{◌≡◌, ◌-◌, ◌≤◌, length};
ghost use Rattle.text.specs.Put.{Writes, leaves};
ghost use Rattle.password.specs.Password.{generated_by};
ghost use Rattle.challenge.specs.Challenges.{challenge_of, algorithm_of, seed_of};
ghost use Rattle.cards.specs.CardChecks.{count_of, card_checked};
ghost use Rattle.cards.specs.Cards.{card_of, card_written};
ghost use Rattle.cards.specs.Inside.{Walked};

use crate::card_checks::card_asked;
use crate::card_lines::write_lines;
use crate::lines::Lines;
use crate::walk::walk;
use challenge::reading::seed_of;
use generator::generate_by;
use password::algorithm::Algorithm;
use refusal::{Reading, Written};

// What is wrong with what a card is asked for: the pass-phrase, the challenge and the lines.
mod card_checks;
// The lines of a card that are to be written.
mod lines;
// One line of a card, and a card's lines one after the other.
mod card_lines;
// The passwords of a card, by one walk up the chain.
mod walk;
// What the program `card` prints for its input.
pub mod printed;

// The password at a count.
fn password_at(algorithm: Algorithm, phrase: &[u8], challenge: &[u8], count: u32) -> Reading
    ensures { result ≡ generated_by algorithm phrase.now (seed_of challenge.now) count }
{
    generate_by(algorithm, phrase, seed_of(challenge), count)
}

// k lines, the first for the count n, where p is the password of the last.
fn write_walked(algorithm: Algorithm, p: u64, n: u32, k: u32, buf: &mut [u8]) -> Written
    requires { (1 ≤ k) × (k ≤ 99) × (k ≤ n) }
    ensures { Walked algorithm p n k buf.old buf.new result }
{
    let mut places = [0u64; 99];
    let passwords = &mut places[..k as usize];
    walk(algorithm, p, passwords);
    write_lines(&Lines { top: n, passwords }, buf)
}

// The card whose first line is for the count n, with nothing wrong but perhaps the room.
fn write_from(
    algorithm: Algorithm,
    phrase: &[u8],
    challenge: &[u8],
    n: u32,
    k: u32,
    buf: &mut [u8],
) -> Written
    requires k_value { (card_checked phrase.now challenge.now k ≡ Ok tt) × (n ≡ count_of (challenge_of challenge.now)) }
    requires algorithm_value { algorithm ≡ algorithm_of (challenge_of challenge.now) }
    ensures { Writes (card_of phrase.now challenge.now k) buf.old buf.new result }
{
    let low = n - (k - 1);
    let p = password_at(algorithm, phrase, challenge, low)?;
    write_walked(algorithm, p, n, k, buf)
}

// The card of `lines` lines for a pass-phrase and a challenge, or the first fault in the order 10, 11, 20 to 25, 70, 40.
pub fn write_card(phrase: &[u8], challenge: &[u8], lines: u32, buf: &mut [u8]) -> Written
    ensures answered { result ≡ card_written phrase.now challenge.now lines (length buf.old) }
    ensures left { buf.new ≡ leaves result (card_of phrase.now challenge.now lines) buf.old }
{
    let (algorithm, n) = card_asked(phrase, challenge, lines)?;
    write_from(algorithm, phrase, challenge, n, lines, buf)
}
