// The passwords of a card, by one walk up the chain.
ghost use Rattle.std.specs.Prelude.{length};
ghost use Rattle.cards.specs.Inside.{Falling};

use generator::chain::step;
use password::algorithm::Algorithm;

// Passwords in falling count, as a card prints them: the last is p, and the chain fills the places before it.
pub fn walk(algorithm: Algorithm, p: u64, ps: &mut [u64])
    ensures { Falling algorithm p (length ps.old) ps.new }
{
    let mut x = p;
    for i in (0..ps.len()).rev() {
        ps[i] = x;
        x = step(algorithm, x);
    }
}
