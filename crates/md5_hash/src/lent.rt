// A round with its constants, which are lent.
ghost use Rattle.std.specs.Prelude.{◌≡◌};
ghost use Rattle.md5_hash.specs.Inside.{as_printed};

use crate::round::Round;

#[derive(Clone, Copy)]
pub struct Lent<'a> {
    pub round: Round,
    pub t: &'a [u32; 16],
    ghost t_value: { t.now ≡ (as_printed round).constants },
}
