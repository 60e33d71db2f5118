// RFC 1321, 3.4: the operations on the registers, four at a time, as the RFC prints them.
ghost use Rattle.std.specs.Prelude.{◌≡◌, ◌<◌, ◌≤◌};
ghost use Rattle.md5_hash.specs.Inside as code;

use crate::lent::Lent;
use crate::operations::functions::{g_from_x, g_from_y, i};
use crate::order_and_shift::{shift, word};
use crate::round::Round;
use block::arithmetic::{add, rotated};
use block::bitwise::{choice, parity};
use digests::State;

// The functions on words that MD5 alone has.
mod functions;

// One operation: v is the value of the round's function, or what of it waits for B; y is all else that is added to A.
fn operation(q: State, v: u32, y: u32, s: u32) -> State
    requires { (0 < s) × (s < 32) }
    ensures { result ≡ code.operation_summed v y s q }
{
    State {
        a: q.d,
        b: add(q.b, rotated(add(add(q.a, y), v), s)),
        c: q.b,
        d: q.c,
    }
}

// The operation of a round and step.
fn operation_of(lent: Lent, step: usize, q: State, w: &[u32; 16]) -> State
    requires { step < 16 }
    ensures { result ≡ code.operation_of (code.as_printed lent.entry.round) w.now step q }
{
    let round = lent.round;
    let s = shift(round, step);
    let at = word(round, step);
    let y = add(w[at], lent.t[step]);
    match round {
        Round::First => operation(q, choice(q.b, q.c, q.d), y, s),
        Round::Second => operation(q, g_from_x(q.b, q.d), add(y, g_from_y(q.c, q.d)), s),
        Round::Third => operation(q, parity(q.b, q.c, q.d), y, s),
        Round::Fourth => operation(q, i(q.b, q.c, q.d), y, s),
    }
}

// Four operations of a round. A caller says round and step by literals, and the compiler then leaves no choice, no place
// and no shift to be worked out at run time.
pub fn four_of(lent: Lent, step: usize, q: State, w: &[u32; 16]) -> State
    requires { step ≤ 12 }
    ensures { result ≡ code.four_of (code.as_printed lent.entry.round) w.now step q }
{
    let q1 = operation_of(lent, step, q, w);
    let q2 = operation_of(lent, step + 1, q1, w);
    let q3 = operation_of(lent, step + 2, q2, w);
    operation_of(lent, step + 3, q3, w)
}
