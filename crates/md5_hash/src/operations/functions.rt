// RFC 1321, 3.4: the functions of rounds 2 and 4, G and I. Those of 1 and 3 are SHA-1's too (block::bitwise).
ghost use Rattle.std.specs.Prelude.{◌≡◌};
ghost use Rattle.std.specs.Int.Bits.{bit_and};
ghost use Rattle.digests.specs.Rounds as spec;
ghost use Rattle.digests.specs.Words32.{complement};

// G in two halves, the bits that it has from x and those from y. They share no bit, so that G is their sum.
pub fn g_from_x(x: u32, z: u32) -> u32
    ensures { result ≡ bit_and x z }
{
    x & z
}

pub fn g_from_y(y: u32, z: u32) -> u32
    ensures { result ≡ bit_and y (complement z) }
{
    y & !z
}

pub fn i(x: u32, y: u32, z: u32) -> u32
    ensures { result ≡ spec.I x y z }
{
    y ^ (x | !z)
}
