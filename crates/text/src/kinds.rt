// The kinds of a byte, and a letter's lower case. ASCII throughout: a byte over 127 is a token's byte and of no other kind.
ghost use Rattle.std.specs.Prelude.{◌≡◌};
ghost use Rattle.text.specs.Kinds.{is_letter, is_white, lower_of};

// What a run of bytes is made of. An enum and no closure, so that `run` and `stretch_at` are one function each in the compiled code (a closure makes one for
// each caller), and promises and theorems name a kind.
#[derive(Clone, Copy)]
pub enum Kind {
    White, // of a reply: space, tab, carriage return, newline
    Solid, // of a reply: all but those
    Blank, // of a challenge: space, tab
    Token, // of a challenge: all but space, tab, newline
    Part, // of an extended reply: all but a colon
    Digit,
    Letter,
    LetterOrDigit,
}

pub fn is_letter(b: u8) -> bool
    ensures { result ≡ is_letter b }
{
    b.is_ascii_alphabetic()
}

// Not `is_ascii_whitespace`, for which a form feed is white space. No branch stands between the four comparisons: with `matches!` a run of bytes takes
// half as long again.
pub fn is_white(b: u8) -> bool
    ensures { result ≡ is_white b }
{
    (b == b' ') | (b == b'\t') | (b == b'\r') | (b == b'\n')
}

// An upper-case letter's lower case; any other byte as it is.
pub fn lower(b: u8) -> u8
    ensures { result ≡ lower_of b }
{
    b.to_ascii_lowercase()
}
