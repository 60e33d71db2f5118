// Sixteen words, four at a time.
ghost use Rattle.std.specs.Prelude.{◌≡◌, ◌≤◌};
ghost use Rattle.block.specs.ByFour.{four_at};

// One for each of four steps: their words, or what else each has of its own. A struct and not an array of four: `four_at` of ByFour,
// which is among what a reader must believe, speaks of its fields.
#[derive(Clone, Copy)]
pub struct Four(pub u32, pub u32, pub u32, pub u32);

// The four of the words that start at the i-th.
pub fn part(w: [u32; 16], i: usize) -> Four
    requires { i ≤ 12 }
    ensures { result ≡ four_at w i }
{
    Four(w[i], w[i + 1], w[i + 2], w[i + 3])
}
