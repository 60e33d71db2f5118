// The fold of a digest: two words, each written low-order byte first, as one number.
ghost use Rattle.std.specs.Prelude.{◌≡◌, ◌++◌, ℕ};
ghost use Rattle.digests.specs.declared.Order.{Order};
ghost use Rattle.digests.specs.Words32.{bytes4};
ghost use Rattle.digests.specs.Md5.{output};
ghost use Rattle.password.specs.Password as spec;

use digests::{FiveWords, Order, State};

// A word's four bytes, low-order byte first, as a number with the first most significant.
fn read_high(x: u32) -> u64
    ensures { result ≡ spec.number_of (bytes4 Order.Little x) }
{
    block::from_high(Order::Little, x) as u64
}

// Two words' eight bytes as the number of a password.
fn number_of_words(x: u32, y: u32) -> u64
    ensures { result ≡ spec.number_of (bytes4 Order.Little x ++ bytes4 Order.Little y) }
{
    read_high(x) * 4294967296 + read_high(y)
}

// What is kept of a message, folded to a password.
pub trait Folded: Copy {
    ghost folded: { Self → ℕ };

    fn folded(self) -> u64
        ensures { result ≡ folded self };
}

// MD5's registers: of the digest's bytes, 0 to 7 with 8 to 15 are A with C and B with D.
impl Folded for State {
    ghost folded = { λ q. spec.number_of (spec.fold (output q)) };

    fn folded(self) -> u64 {
        number_of_words(self.a ^ self.c, self.b ^ self.d)
    }
}

// SHA-1's five words.
impl Folded for FiveWords {
    ghost folded = { λ h. spec.number_of (spec.fold_words h) };

    fn folded(self) -> u64 {
        number_of_words(self.a ^ self.c ^ self.e, self.b ^ self.d)
    }
}
