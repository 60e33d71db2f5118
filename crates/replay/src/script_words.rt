// The words of a line, with one space between, one after the other.
ghost use Rattle.std.specs.Prelude.{◌≡◌, Some, None, is_none, OnSome};
ghost use Rattle.std.specs.Option.{option_copied, option_copied_mut, option_map};
ghost use Rattle.replay.specs.ReplayWords.{number_in, password_in, text_in, of_type, held_to};
ghost use Rattle.replay.specs.ReplayWords.{first_word, behind_word, next_word, after_word, next_says, values_in, after_values};
ghost use Rattle.extended.specs.ReplyTypes.{typed};

use crate::word_values::{
    algorithm_in, password_in, port_in, room_in, short_in, text_in, ticks_in, type_in,
};
use std::marker::Model;
use text::scan::find;

// The words that are still to be read: `None` behind the last one.
#[derive(Drop)]
pub struct Words<'a> {
    rest: Option<&'a mut [u8]>,
}

impl<'a> Model for Words<'a> {
    ghost use Rattle.std.specs.Prelude.{ℕ, List, Option};
    ghost use Rattle.std.specs.Option.{option_copied_mut};

    ghost Value = { Option (List ℕ) };

    ghost view = { λ words. option_copied_mut words.rest };
}

// An account's new values, or those of a renewal.
#[derive(Clone, Copy, Default)]
pub struct Values<'a> {
    pub algorithm: u32,
    pub count: u16,
    pub seed: &'a [u8],
    pub password: u64,
}

// The first word, and what is left behind it. By `find`, whose promise names the byte; that of `splitn_mut` is of any closure.
fn parted(line: &mut [u8]) -> (&mut [u8], Option<&mut [u8]>)
    ensures word { result.0.now ≡ first_word line.old }
    ensures left { option_copied_mut result.1 ≡ behind_word line.old }
{
    let end = find(line, 0, b' ');
    let (word, behind) = line.split_at_mut(end);
    match behind {
        [] => (word, None),
        [_, left @ ..] => (word, Some(left)),
    }
}

impl<'a> Words<'a> {
    pub fn of(line: &'a mut [u8]) -> Words<'a>
        ensures { result ≡ Some line.old }
    {
        Words { rest: Some(line) }
    }

    // Whether there is no word left.
    pub fn are_read(&self) -> bool
        ensures { result ≡ is_none self.now }
    {
        self.rest.is_none()
    }

    // The next word: up to the next space, or all that is left.
    pub fn word(&mut self) -> Option<&'a mut [u8]>
        ensures value { option_copied_mut result ≡ next_word self.old }
        ensures left { self.new ≡ after_word self.old }
    {
        let (word, left) = parted(self.rest.take()?);
        self.rest = left;
        Some(word)
    }

    pub fn text(&mut self) -> Option<&'a [u8]>
        ensures value { option_copied result ≡ next_says text_in self.old }
        ensures left { self.new ≡ after_word self.old }
    {
        text_in(self.word()?)
    }

    pub fn password(&mut self) -> Option<u64>
        ensures value { result ≡ next_says password_in self.old }
        ensures left { self.new ≡ after_word self.old }
    {
        password_in(self.word()?)
    }

    pub fn algorithm(&mut self) -> Option<u32>
        ensures value { result ≡ next_says (number_in 10 255) self.old }
        ensures left { self.new ≡ after_word self.old }
    {
        algorithm_in(self.word()?)
    }

    // An id, a count, a number of lines.
    pub fn short(&mut self) -> Option<u16>
        ensures value { result ≡ next_says (number_in 10 65535) self.old }
        ensures left { self.new ≡ after_word self.old }
    {
        short_in(self.word()?)
    }

    pub fn port(&mut self) -> Option<u8>
        ensures value { result ≡ option_map (held_to 255) (next_says (number_in 10 65535) self.old) }
        ensures left { self.new ≡ after_word self.old }
    {
        port_in(self.word()?)
    }

    pub fn room(&mut self) -> Option<usize>
        ensures value { result ≡ next_says (number_in 10 8192) self.old }
        ensures left { self.new ≡ after_word self.old }
    {
        room_in(self.word()?)
    }

    pub fn ticks(&mut self) -> Option<u64>
        ensures value { result ≡ next_says (number_in 10 100000) self.old }
        ensures left { self.new ≡ after_word self.old }
    {
        ticks_in(self.word()?)
    }

    // The number of a type of extended reply.
    pub fn reply_type(&mut self) -> Option<u32>
        ensures value { result ≡ next_says (λ word. of_type (typed word)) self.old }
        ensures left { self.new ≡ after_word self.old }
    {
        type_in(self.word()?)
    }

    pub fn values(&mut self) -> Option<Values<'a>>
        ensures value { option_map (λ it. (it.algorithm, it.count, it.seed.now, it.password)) result ≡ values_in self.old }
        ensures left { OnSome result (self.new ≡ after_values self.old) }
    {
        Some(Values {
            algorithm: self.algorithm()?,
            count: self.short()?,
            seed: self.text()?,
            password: self.password()?,
        })
    }
}
