// Mathematical routines, after math.rs: the two phase wraps, and sine and cosine by fixed steps. Equal to their definitions on every input.
#![tactic(auto)]

ghost use Rattle.std.specs.Prelude.{◌≡◌};
ghost use Rattle.math.specs.Phase.{rem_euclid, two_pi, phase_wrap, phase_wrap_once};
ghost use Rattle.math.specs.Carrier.{reduced, horner_of, sine_sum, cosine_sum, quadrant, sin_cos};

use std::f64::consts::{FRAC_PI_2, FRAC_PI_4, PI, TAU};

// The remainder by 2 PI that is not negative, as Rust's `rem_euclid`.
#[tactic(auto, unfolding(crate::specs::Phase::rem_euclid, float_remainder::specs::Turn::two_pi))]
fn rem_two_pi(x: f64) -> f64
    ensures { result ≡ rem_euclid x two_pi }
{
    let rest = float_remainder::rem_two_pi(x);
    if rest < 0.0 { rest + TAU } else { rest }
}

// Wraps a phase to -PI to PI.
#[tactic(auto, using(crate::proofs::Literals::pi_is), unfolding(crate::specs::Phase::phase_wrap))]
pub fn phase_wrap_f64(phase: f64) -> f64
    ensures { result ≡ phase_wrap phase }
{
    rem_two_pi(phase + PI) - PI
}

// Wraps a phase that lies within 3 PI of 0.
#[tactic(auto, using(crate::proofs::Literals::pi_is), unfolding(crate::specs::Phase::phase_wrap_once, float_remainder::specs::Turn::two_pi))]
pub fn phase_wrap_once_f64(phase: f64) -> f64
    ensures { result ≡ phase_wrap_once phase }
{
    if phase >= PI {
        phase - TAU
    } else if phase < -PI {
        phase + TAU
    } else {
        phase
    }
}

// A phase as r and q of SPECIFICATION 6.11: r plus q times PI / 2, but for whole turns.
#[derive(Clone, Copy)]
pub struct Reduced {
    pub r: f64,
    pub q: u8,
}

#[derive(Clone, Copy)]
pub struct SinCos {
    pub sin: f64,
    pub cos: f64,
}

// 1.5 times PI / 2. Half of PI / 2 is FRAC_PI_4.
pub const OUTER_LIMIT: f64 = 2.356194490192345;

#[tactic(auto, using(crate::proofs::Literals::pi_is, crate::proofs::Literals::half_pi_is, crate::proofs::Literals::outer_limit_is, crate::proofs::Literals::inner_limit_is), unfolding(crate::specs::Carrier::reduced))]
fn reduce(p: f64) -> Reduced
    ensures { result ≡ reduced p }
{
    if p < -OUTER_LIMIT {
        return Reduced { r: p + PI, q: 2 };
    }
    if p < -FRAC_PI_4 {
        return Reduced {
            r: p + FRAC_PI_2,
            q: 3,
        };
    }
    if p < FRAC_PI_4 {
        return Reduced { r: p, q: 0 };
    }
    if p < OUTER_LIMIT {
        return Reduced {
            r: p - FRAC_PI_2,
            q: 1,
        };
    }
    Reduced { r: p - PI, q: 2 }
}

// A sum in z of coefficients, the highest first, by Horner's steps. The highest stands apart, so that no step is spent on a 0.
#[tactic(auto, using(crate::proofs::Horner::horner_step, crate::proofs::Horner::horner_end))]
fn polynomial(highest: f64, others: &[f64], z: f64) -> f64
    ensures { result ≡ horner_of highest others.now z }
{
    let mut sum = highest;
    for a in others {
        sum = sum * z + *a;
    }
    sum
}

// r times the Horner sum of (-1)^n/(2n+1)!, n 0 to 6, in r times r.
fn sine_sum(r: f64) -> f64
    ensures { result ≡ sine_sum r }
{
    r * polynomial(
        1.6059043836821613e-10,
        &[
            -2.505210838544172e-8,
            2.7557319223985893e-6,
            -0.0001984126984126984,
            0.008333333333333333,
            -0.16666666666666666,
            1.0,
        ],
        r * r,
    )
}

// The Horner sum of (-1)^n/(2n)!, n 0 to 7, in r times r.
fn cosine_sum(r: f64) -> f64
    ensures { result ≡ cosine_sum r }
{
    polynomial(
        -1.1470745597729725e-11,
        &[
            2.08767569878681e-9,
            -2.755731922398589e-7,
            2.48015873015873e-5,
            -0.001388888888888889,
            0.041666666666666664,
            -0.5,
            1.0,
        ],
        r * r,
    )
}

// The sine and the cosine from S and C of the reduced phase.
#[tactic(auto, unfolding(crate::specs::Carrier::quadrant))]
fn by_quadrant(q: u8, s: f64, c: f64) -> SinCos
    ensures { result ≡ quadrant q s c }
{
    match q {
        0 => SinCos { sin: s, cos: c },
        1 => SinCos { sin: c, cos: -s },
        2 => SinCos { sin: -s, cos: -c },
        _ => SinCos { sin: -c, cos: s },
    }
}

#[tactic(auto, unfolding(crate::specs::Carrier::sin_cos))]
pub fn sin_cos(p: f64) -> SinCos
    ensures { result ≡ sin_cos p }
{
    let a = reduce(p);
    by_quadrant(a.q, sine_sum(a.r), cosine_sum(a.r))
}
