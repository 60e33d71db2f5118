// The functions on words that both standards have: RFC 1321, 3.4, F and H; FIPS 180-4, 4.1.1, Ch and Parity.
ghost use Rattle.std.specs.Prelude.{◌≡◌};
ghost use Rattle.digests.specs.Rounds.{F};
ghost use Rattle.digests.specs.Sha1.{Ch, Parity};

// The bits of y where x has 1, and else those of z. Three operations, of which two wait for x, where the standards have four and three
// wait: x is the register that comes last.
pub fn choice(x: u32, y: u32, z: u32) -> u32
    ensures f { result ≡ F x y z }
    ensures ch { result ≡ Ch x y z }
{
    z ^ (x & (y ^ z))
}

pub fn parity(x: u32, y: u32, z: u32) -> u32
    ensures { result ≡ Parity x y z }
{
    x ^ y ^ z
}
