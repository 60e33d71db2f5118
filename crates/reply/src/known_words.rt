// Six packed words looked up.
ghost use Rattle.std.specs.Prelude.{◌+◌, ◌*◌, ◌≤◌, ◌≡◌, map};
ghost use Rattle.dictionary.specs.Dictionary.{found_of};
ghost use Rattle.reply.specs.Inside.{why_not};
ghost use Rattle.reply.specs.Reply.{mark_of, place_in, found_reading};

use refusal::{Reading, Refusal};
use sixwords::number_of;
use wordlist::place_of;

// Where a word was found; 2,048, which no word has, where it was not, as the definition has it (`place_in`).
fn place_in(found: Option<usize>) -> usize
    ensures { result ≡ place_in found }
{
    found.unwrap_or(2048)
}

// The marks of a word and of those after it: its own is the lowest.
fn marked(found: Option<usize>, after: u8) -> u8
    requires { after ≤ 63 }
    ensures { result ≡ mark_of found + 2 * after }
{
    match found {
        Some(_) => after << 1,
        None => (after << 1) + 1,
    }
}

// What is wrong with words that have no number: 31 before 32.
fn why_not(marks: u8) -> Refusal
    ensures { result ≡ why_not marks }
{
    if 0 < marks {
        Refusal::WordUnknown { marks }
    } else {
        Refusal::PairSumWrong
    }
}

// The password that six packed words stand for. They are looked up from the last to the first, so that the marks are those of the
// words behind, doubled, and the word's own. The places have no number where one is 2,048; `why_not` then says which refusal it is.
pub fn read_words(words: [u32; 6]) -> Reading
    ensures { result ≡ found_reading (map found_of words) }
{
    let mut places = [0usize; 6];
    let mut marks: u8 = 0;
    for k in (0..6).rev() {
        let found = place_of(words[k]);
        places[k] = place_in(found);
        marks = marked(found, marks);
    }
    number_of(places).ok_or(why_not(marks))
}
