// What is wrong with what a card is asked for: the pass-phrase, the challenge and the lines. Document 01, 'The card'.
ghost use Rattle.std.specs.Prelude.{◌≡◌};
ghost use Rattle.cards.specs.Inside.{lines_counted, asked_of};

use challenge::reading::read;
use password::algorithm::Algorithm;
use password::phrase_and_seed::check_phrase;
use refusal::Refusal;

// The algorithm and the count of a challenge, if the card can have so many lines.
fn lines_counted(lines: u32, algorithm: Algorithm, count: u32) -> Result<(Algorithm, u32), Refusal>
    ensures { result ≡ lines_counted lines algorithm count }
{
    if (1 <= lines) & (lines <= 99) & (lines <= count) {
        return Ok((algorithm, count));
    }
    Err(Refusal::LinesOutside)
}

// The algorithm and the count of a card's first line, or the first fault in the order 10, 11, 20 to 25, 70.
pub fn card_asked(phrase: &[u8], challenge: &[u8], lines: u32) -> Result<(Algorithm, u32), Refusal>
    ensures { result ≡ asked_of phrase.now challenge.now lines }
{
    check_phrase(phrase)?;
    let asked = read(challenge)?;
    lines_counted(lines, asked.algorithm, asked.count)
}
