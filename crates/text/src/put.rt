// What is put at the front of a lent buffer: a text, and a number in digits.
ghost use Rattle.std.specs.Prelude.{[], ◌∷◌, ◌++◌, ◌+◌, ◌≤◌, ◌<◌, length};
ghost use Rattle.text.specs.Digits.{digits_of};
ghost use Rattle.text.specs.Put.{Put};

// The bytes of `t` at the front of the buffer, and how many they are. By a loop: with `copy_from_slice` what C links calls `memmove`.
pub fn copy(buf: &mut [u8], t: &[u8]) -> usize
    requires { length t.now ≤ length buf.old }
    ensures { Put t.now buf.old buf.new result }
{
    for (i, b) in t.iter().enumerate() {
        buf[i] = *b;
    }
    t.len()
}

// The same and one byte after it.
pub fn copy_and(buf: &mut [u8], t: &[u8], last: u8) -> usize
    requires { length t.now + 1 ≤ length buf.old }
    ensures { Put (t.now ++ last ∷ []) buf.old buf.new result }
{
    let a = copy(buf, t);
    buf[a] = last;
    a + 1
}

const DIGITS: &[u8; 16] = b"0123456789abcdef";

// The last `k` digits of `n` in that base at the front of the buffer, and how many they are.
pub fn spell(buf: &mut [u8], n: u64, base: u64, k: usize) -> usize
    requires { (k ≤ length buf.old) × (1 < base) × (base ≤ 16) }
    ensures { Put (digits_of base k n) buf.old buf.new result }
{
    let mut rest = n;
    for i in (0..k).rev() {
        buf[i] = DIGITS[(rest % base) as usize];
        rest /= base;
    }
    k
}
