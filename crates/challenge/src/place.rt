// A place in a text, and what is read from there.
ghost use Rattle.std.specs.Prelude.{◌≡◌, ◌+◌, ◌≤◌, length, drop};
ghost use Rattle.text.specs.Kinds.{is_blank};
ghost use Rattle.text.specs.Scan.{run_of};
ghost use Rattle.challenge.specs.Challenges as spec;

use text::kinds::Kind;
use text::scan::{run, stretch_at};

// Before a byte of the text, or at its end.
#[derive(Clone, Copy)]
pub struct Place<'a> {
    pub text: &'a [u8],
    pub at: usize,
    ghost within: { at ≤ length text.now },
}

impl<'a> Place<'a> {
    // The token that starts there.
    pub fn token(self) -> &'a [u8]
        ensures { result.now ≡ spec.token_at self.entry.text.now self.entry.at }
    {
        stretch_at(self.text, self.at, Kind::Token)
    }

    // That token, and where it ends.
    pub fn token_and_end(self) -> (&'a [u8], Place<'a>)
        ensures { (result.0.now ≡ spec.token_at self.entry.text.now self.entry.at)
            × (result.1.text ≡ self.entry.text) × (result.1.at ≡ spec.end_of self.entry.text.now self.entry.at) }
    {
        let text = self.text;
        let token = self.token();
        let at = self.at + token.len();
        (token, Place { text, at })
    }

    // Past the blanks that stand there: from where a token ends, where the next one starts.
    pub fn past_blanks(self) -> Place<'a>
        ensures { (result.text ≡ self.entry.text)
            × (result.at ≡ self.entry.at + run_of is_blank (drop self.entry.at self.entry.text.now)) }
    {
        let text = self.text;
        let at = self.at + run(text, self.at, Kind::Blank);
        Place { text, at }
    }

    // Whether a space or a newline stands there.
    pub fn is_terminated(self) -> bool
        ensures { result ≡ spec.terminated (drop self.entry.at self.entry.text.now) }
    {
        matches!(&self.text[self.at..], [b' ' | b'\n', ..])
    }
}
