// RFC 1321, 3.4: the four rounds on the registers.
ghost use Rattle.std.specs.Prelude.{refl};
ghost use Rattle.digests.specs.Rounds as spec;
ghost use Rattle.md5_hash.specs.declared.round.Round.{Round};
ghost use Rattle.md5_hash.specs.Inside.{as_printed};

use crate::constants::Constants;
use crate::lent::Lent;
use crate::operations::four_of;
use crate::round::Round;
use block::hashing::{HashFunction, Words};
use digests::State;

pub struct Md5;

impl HashFunction for Md5 {
    type Words = State;

    // Lent, since the compiler adds constants that are in sight last, where the next operation waits. One struct, and not four arrays
    // beside the registers, which were 48 bytes smaller: it has what `compress` would have to ask for.
    type Lent = Constants;

    ghost steps = { spec.rounds };

    ghost loan = { record {
      t1 = (as_printed Round.First).constants;
      t2 = (as_printed Round.Second).constants;
      t3 = (as_printed Round.Third).constants;
      t4 = (as_printed Round.Fourth).constants;
      first = refl;
      second = refl;
      third = refl;
      fourth = refl;
    } };

    fn lent() -> Constants {
        Constants::new()
    }

    // The rounds in rows of four operations, and the sum.
    #[inline(never)]
    fn compress(w: &[u32; 16], p: State, lent: &Constants) -> State {
        let first = Lent {
            round: Round::First,
            t: &lent.t1,
        };
        let q = four_of(first, 0, p, w);
        let q = four_of(first, 4, q, w);
        let q = four_of(first, 8, q, w);
        let q = four_of(first, 12, q, w);
        let second = Lent {
            round: Round::Second,
            t: &lent.t2,
        };
        let q = four_of(second, 0, q, w);
        let q = four_of(second, 4, q, w);
        let q = four_of(second, 8, q, w);
        let q = four_of(second, 12, q, w);
        let third = Lent {
            round: Round::Third,
            t: &lent.t3,
        };
        let q = four_of(third, 0, q, w);
        let q = four_of(third, 4, q, w);
        let q = four_of(third, 8, q, w);
        let q = four_of(third, 12, q, w);
        let fourth = Lent {
            round: Round::Fourth,
            t: &lent.t4,
        };
        let q = four_of(fourth, 0, q, w);
        let q = four_of(fourth, 4, q, w);
        let q = four_of(fourth, 8, q, w);
        four_of(fourth, 12, q, w).summed(p)
    }
}
