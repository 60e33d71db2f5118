// FIPS 180-4, 6.1.2, 1: the message schedule, sixteen words at a time.
ghost use Rattle.std.specs.Prelude.{◌≡◌};
ghost use Rattle.sha1_hash.specs.Inside as code;

use block::arithmetic::rotated;

// The sixteen words of a schedule after the sixteen words m. Each takes the place of the oldest.
pub fn following(m: [u32; 16]) -> [u32; 16]
    ensures { result ≡ code.following m }
{
    let mut w = m;
    for t in 0..16 {
        let x = w[(t + 13) % 16] ^ w[(t + 8) % 16] ^ w[(t + 2) % 16] ^ w[t];
        w[t] = rotated(x, 1);
    }
    w
}
