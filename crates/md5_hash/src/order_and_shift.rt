// RFC 1321, 3.4: the k and the s of [abcd k s i], worked out from the round and the step in it, 0 to 15.
ghost use Rattle.std.specs.Prelude.{◌≡◌, ◌<◌, get_or};
ghost use Rattle.md5_hash.specs.Inside.{as_printed};

use crate::round::Round;

// Which word of the block the operation takes.
pub fn word(round: Round, step: usize) -> usize
    requires { step < 16 }
    ensures { (result ≡ get_or (as_printed round).order step 0) × (result < 16) }
{
    match round {
        Round::First => step,
        Round::Second => (5 * step + 1) % 16,
        Round::Third => (3 * step + 5) % 16,
        Round::Fourth => 7 * step % 16,
    }
}

// By how much it rotates. The four shifts of a round come again after four operations.
pub fn shift(round: Round, step: usize) -> u32
    requires { step < 16 }
    ensures { (result ≡ get_or (as_printed round).shifts step 0) × ((0 < result) × (result < 32)) }
{
    let j = (step % 4) as u32;
    match round {
        Round::First => 7 + 5 * j,
        Round::Second => 5 + j * (j + 7) / 2,
        Round::Third => 4 + 6 * j + j % 2,
        Round::Fourth => 6 + j * (j + 7) / 2,
    }
}
