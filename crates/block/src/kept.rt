// What MD5 keeps of a message, RFC 1321, 3.3 to 3.5, and what SHA-1 keeps, FIPS 180-4, 5.3.1 and 6.1.2.
ghost use Rattle.std.specs.Prelude.{refl};
ghost use Rattle.digests.specs.Md5 as md5;
ghost use Rattle.digests.specs.Sha1 as sha1;

use crate::arithmetic::add;
use crate::as_bytes::{two_words, word};
use crate::hashing::Words;
use digests::{FiveWords, Order, State};

impl Words for State {
    ghost kept = { md5.kept };

    ghost SIZE = { 16 };

    const SIZE: usize = 16;

    fn order() -> Order {
        Order::Little
    }

    fn initial() -> State {
        State {
            a: 0x67452301,
            b: 0xefcdab89,
            c: 0x98badcfe,
            d: 0x10325476,
        }
    }

    fn summed(self, before: State) -> State {
        State {
            a: add(self.a, before.a),
            b: add(self.b, before.b),
            c: add(self.c, before.c),
            d: add(self.d, before.d),
        }
    }

    fn put(self, buf: &mut [u8]) -> usize {
        let a = two_words(Order::Little, buf, self.a, self.b);
        a + two_words(Order::Little, &mut buf[a..], self.c, self.d)
    }

    ghost long = { λ h. refl };
}

impl Words for FiveWords {
    ghost kept = { sha1.kept };

    ghost SIZE = { 20 };

    const SIZE: usize = 20;

    fn order() -> Order {
        Order::Big
    }

    fn initial() -> FiveWords {
        FiveWords {
            a: 0x67452301,
            b: 0xefcdab89,
            c: 0x98badcfe,
            d: 0x10325476,
            e: 0xc3d2e1f0,
        }
    }

    fn summed(self, before: FiveWords) -> FiveWords {
        FiveWords {
            a: add(self.a, before.a),
            b: add(self.b, before.b),
            c: add(self.c, before.c),
            d: add(self.d, before.d),
            e: add(self.e, before.e),
        }
    }

    fn put(self, buf: &mut [u8]) -> usize {
        let a = two_words(Order::Big, buf, self.a, self.b);
        let b = a + two_words(Order::Big, &mut buf[a..], self.c, self.d);
        b + word(Order::Big, &mut buf[b..], self.e)
    }

    ghost long = { λ h. refl };
}
