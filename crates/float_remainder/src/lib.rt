// The remainder of an `f64` by 2 PI without the C library: multiples of 2 PI by powers of two are taken off, the largest first, each exactly.
#![tactic(auto)]

ghost use Rattle.std.specs.Prelude.{◌≡◌, true};
ghost use Rattle.std.specs.Float.{binary64};
ghost use Rattle.std.specs.Float.Ieee.{rem, le};
ghost use Rattle.float_remainder.specs.Turn.{two_pi, taken};

use std::f64::consts::TAU;

// 2^1021 times 2 PI: twice that is not finite.
const LARGEST: f64 = 1.4119048864730642e308;

// What is left of r once t is taken off, where it can be.
#[tactic(auto, unfolding(crate::specs::Turn::taken))]
fn taken_off(r: f64, t: f64) -> f64
    ensures { result ≡ taken r t }
{
    if t <= r {
        if r <= t { 0.0 } else { r - t }
    } else {
        r
    }
}

// The remainder of a value of 2 PI or more. An infinity has none: it less itself is no number.
#[tactic(auto, using(crate::proofs::Steps::no_number, crate::proofs::Steps::begun, crate::proofs::Steps::taken_once))]
fn far(x: f64) -> f64
    requires { le two_pi x ≡ true }
    ensures { result ≡ rem binary64 x two_pi }
{
    let infinity = 1.0 / 0.0;
    if x == infinity {
        return x - x;
    }
    let mut r = x;
    let mut t = LARGEST;
    for i in 0..1022usize {
        r = taken_off(r, t);
        t = t * 0.5;
    }
    r
}

// Rust's `x % (2.0 * PI)`.
#[tactic(auto, using(crate::proofs::Steps::small, crate::proofs::Steps::rem_neg), unfolding(crate::specs::Turn::two_pi))]
pub fn rem_two_pi(x: f64) -> f64
    ensures { result ≡ rem binary64 x two_pi }
{
    if TAU <= x {
        return far(x);
    }
    let y = -x;
    if TAU <= y {
        return -far(y);
    }
    x
}
