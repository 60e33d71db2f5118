// FIPS 180-4, 6.1.2, 3: the steps on the working variables.
ghost use Rattle.std.specs.Prelude.{◌≡◌};
ghost use Rattle.digests.specs.Sha1 as spec;
ghost use Rattle.sha1_hash.specs.Inside as code;
ghost use Rattle.sha1_hash.specs.Inside.{number};

use crate::schedule::following;
use block::arithmetic::{add, rotated};
use block::bitwise::{choice, parity};
use block::by_four::{Four, part};
use block::hashing::{HashFunction, Words};
use digests::FiveWords;

// 4.1.1: the bits that two of the three have.
fn maj(x: u32, y: u32, z: u32) -> u32
    ensures { result ≡ spec.Maj x y z }
{
    (x & y) ^ (x & z) ^ (y & z)
}

// One step: f is the function at b, c, d, and k the constant.
fn step(v: FiveWords, f: u32, k: u32, w: u32) -> FiveWords
    ensures { result ≡ spec.step_with f k w v }
{
    FiveWords {
        a: add(add(add(add(rotated(v.a, 5), f), v.e), k), w),
        b: v.a,
        c: rotated(v.b, 30),
        d: v.c,
        e: v.d,
    }
}

// Twenty steps, which have one function and one constant.
#[derive(Clone, Copy)]
enum Quarter {
    First,
    Second,
    Third,
    Fourth,
}

// One step of a quarter: 4.1.1 and 4.2.1 have its function and its constant.
fn step_of(quarter: Quarter, v: FiveWords, w: u32) -> FiveWords
    ensures { result ≡ code.step_of (number quarter) w v }
{
    match quarter {
        Quarter::First => step(v, choice(v.b, v.c, v.d), 0x5a827999, w),
        Quarter::Second => step(v, parity(v.b, v.c, v.d), 0x6ed9eba1, w),
        Quarter::Third => step(v, maj(v.b, v.c, v.d), 0x8f1bbcdc, w),
        Quarter::Fourth => step(v, parity(v.b, v.c, v.d), 0xca62c1d6, w),
    }
}

// Four steps of a quarter. A caller says it by its name, and the compiler then leaves no choice to be made at run time.
fn four_of(quarter: Quarter, v0: FiveWords, w: Four) -> FiveWords
    ensures { result ≡ code.four_of (number quarter) w v0 }
{
    let v1 = step_of(quarter, v0, w.0);
    let v2 = step_of(quarter, v1, w.1);
    let v3 = step_of(quarter, v2, w.2);
    step_of(quarter, v3, w.3)
}

pub struct Sha1;

impl HashFunction for Sha1 {
    type Words = FiveWords;

    type Lent = ();

    ghost steps = { spec.eighty };

    ghost loan = { tt };

    fn lent() {}

    // The eighty steps, four at a time, and the sum.
    #[inline(never)]
    fn compress(w: &[u32; 16], h: FiveWords, _: &()) -> FiveWords {
        let w = *w;
        let v = four_of(Quarter::First, h, part(w, 0));
        let v = four_of(Quarter::First, v, part(w, 4));
        let v = four_of(Quarter::First, v, part(w, 8));
        let v = four_of(Quarter::First, v, part(w, 12));
        let w = following(w);
        let v = four_of(Quarter::First, v, part(w, 0));
        let v = four_of(Quarter::Second, v, part(w, 4));
        let v = four_of(Quarter::Second, v, part(w, 8));
        let v = four_of(Quarter::Second, v, part(w, 12));
        let w = following(w);
        let v = four_of(Quarter::Second, v, part(w, 0));
        let v = four_of(Quarter::Second, v, part(w, 4));
        let v = four_of(Quarter::Third, v, part(w, 8));
        let v = four_of(Quarter::Third, v, part(w, 12));
        let w = following(w);
        let v = four_of(Quarter::Third, v, part(w, 0));
        let v = four_of(Quarter::Third, v, part(w, 4));
        let v = four_of(Quarter::Third, v, part(w, 8));
        let v = four_of(Quarter::Fourth, v, part(w, 12));
        let w = following(w);
        let v = four_of(Quarter::Fourth, v, part(w, 0));
        let v = four_of(Quarter::Fourth, v, part(w, 4));
        let v = four_of(Quarter::Fourth, v, part(w, 8));
        four_of(Quarter::Fourth, v, part(w, 12)).summed(h)
    }
}
