// The parts of an extended reply: what stands between its colons.
ghost use Rattle.std.specs.Prelude.{◌≡◌, ◌+◌, ◌≤◌, length};
ghost use Rattle.extended.specs.ReplyTexts as spec;
ghost use Rattle.extended.specs.Inside.{few_colons};

use text::kinds::Kind;
use text::scan::stretch_at;

// How many colons a text has; 4 for more than three, since no type has so many. (Without that end the compiler counts sixteen bytes at a time, and keeps
// constants for it that GNU ld links with `lift_md5` too.)
pub fn colons(text: &[u8]) -> usize
    ensures { result ≡ few_colons text.now }
{
    text.iter().filter(|b| **b == b':').take(4).count()
}

// The part that starts at a place; nothing past the end.
pub fn part(text: &[u8], at: usize) -> &[u8]
    ensures { result.now ≡ spec.part_at text.now at }
{
    if text.len() < at {
        return &text[..0];
    }
    stretch_at(text, at, Kind::Part)
}

// Where the part after the one at a place starts.
pub fn after(text: &[u8], at: usize) -> usize
    requires { (length text.now ≤ 256) × (at ≤ length text.now + 2) }
    ensures { result ≡ spec.part_after text.now at }
{
    at + part(text, at).len() + 1
}
