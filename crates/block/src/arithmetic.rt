// RFC 1321, 2; FIPS 180-4, 2.2.2 and 3.2: the sum and the rotation of words of 32 bits.
ghost use Rattle.std.specs.Prelude.{◌≡◌, ◌<◌};
ghost use Rattle.digests.specs.Words32 as spec;

// The sum without the carry out of the top.
pub fn add(x: u32, y: u32) -> u32
    ensures { result ≡ spec.add x y }
{
    x.wrapping_add(y)
}

// The bits shifted left around by s.
pub fn rotated(x: u32, s: u32) -> u32
    requires { (0 < s) × (s < 32) }
    ensures { result ≡ spec.rotated x s }
{
    x.rotate_left(s)
}
