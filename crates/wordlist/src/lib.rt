// The word list of RFC 2289, Appendix D, in code: the packed word at a place, and the place of a packed word.
#![tactic(auto)]

ghost use Rattle.std.specs.Prelude.{◌≡◌};
ghost use Rattle.dictionary.specs.Dictionary.{packed_at, found_of};

use crate::word_table::WORDS;

// The dictionary's packed words.
mod word_table;

// The packed word at a place; 0 from 2,048 on.
pub fn word_at(place: usize) -> u32
    ensures { result ≡ packed_at place }
{
    WORDS.get(place).copied().unwrap_or(0)
}

// Where a packed word stands, if it does. It stays a function of its own: taken in line into a loop over six words, the steps of its search become branches.
#[inline(never)]
pub fn place_of(word: u32) -> Option<usize>
    ensures { result ≡ found_of word }
{
    WORDS.binary_search(&word).ok()
}
