// The shape of a pulse, after pulse_shape.rs: trapezoids, prototypes and their group delays, and the checks of the lowpass taps that prototypes are made of.
// Each function is equal to a definition of specs/ on every input.
#![tactic(auto)]

ghost use Rattle.std.specs.Prelude.{◌≡◌, ◌<◌, ◌≤◌, ◌^◌, length};
ghost use Rattle.constants.specs.Setting.{per_pulse, by_mode};
ghost use Rattle.pulse_shape.specs.Values.{values};
ghost use Rattle.pulse_shape.specs.Trapezoid.{trapezoid_at, mode_s_trapezoid, mode_ac_trapezoid};
ghost use Rattle.pulse_shape.specs.Convolve.{convolve_at};
ghost use Rattle.pulse_shape.specs.Prototype.{first_values};
ghost use Rattle.pulse_shape.specs.Accepted.{all_within16, mode_s_taps_accepted, mode_ac_taps_accepted};
ghost use Rattle.pulse_shape.specs.GroupDelay.{crosses, delay_at, group_delay, mode_ac_group_delay};

use constants::{Mode, SamplesPerPulse};

// The filters of the two modes: the lowpass taps that a run is opened with, or the prototypes that replies are made by. `Delays` of message_config has numbers: one struct for both would put a type parameter into each definition over delays, and be no plainer.
#[derive(Clone, Copy)]
pub struct Filters<'a> {
    pub mode_s: &'a [f32],
    pub mode_ac: &'a [f32],
}

// m / n, each taken as an f32.
fn ratio(m: u32, n: u32) -> f32
    ensures { result ≡ Rattle.pulse_shape.specs.Trapezoid.ratio m n }
{
    std::num::nearest_u32_to_f32(m) / std::num::nearest_u32_to_f32(n)
}

// Value j of a trapezoid.
#[tactic(auto, unfolding(crate::specs::Trapezoid::trapezoid_at))]
fn trapezoid_at(rise: u32, fall: u32, total: u32, j: u32) -> f32
    requires { (fall ≤ total) × (j < total) }
    ensures { result ≡ trapezoid_at rise fall total j }
{
    if j < rise {
        ratio(j, rise)
    } else if j < total - fall {
        1.0
    } else {
        1.0 - ratio(j - (total - fall) + 1, fall)
    }
}

// The trapezoid of N values with two edges. By a loop: the closure of `from_fn` would want the clauses of `trapezoid_at` again, as N is any number.
fn trapezoid<const N: usize>(rise: u32, fall: u32) -> [f32; N]
    requires { (N ≤ 614) × (fall ≤ N) }
    ensures { result ≡ values (trapezoid_at rise fall N) N }
{
    let mut out = [0.0f32; N];
    for (j, x) in out.iter_mut().enumerate() {
        *x = trapezoid_at(rise, fall, N as u32, j as u32);
    }
    out
}

// Value j of the convolution of a and b: from 0.0, the products a[k] * b[j - k] of the indices that both have.
fn convolve_at(a: &[f32], b: &[f32], j: usize) -> f32
    requires { j < 2 ^ 63 }
    ensures { result ≡ convolve_at a.now b.now j }
{
    let start = (j + 1).saturating_sub(b.len());
    let end = (j + 1).min(a.len());
    let mut sum = 0.0f32;
    for k in start..end {
        sum += a[k] * b[j - k];
    }
    sum
}

// The first values of a pulse convolved with a lowpass. By a loop: with `from_fn` the proof did not close.
fn convolution(pulse: &[f32], lowpass: &[f32], out: &mut [f32])
    ensures { out.new ≡ first_values (length out.old) pulse.now lowpass.now }
{
    for (j, x) in out.iter_mut().enumerate() {
        *x = convolve_at(pulse, lowpass, j);
    }
}

// Writes the prototype of a mode, from its lowpass: as many of its values as there is room for, and 0.0 behind its last one.
#[tactic(auto, unfolding(constants::specs::Setting::by_mode, crate::specs::Trapezoid::mode_s_trapezoid, crate::specs::Trapezoid::mode_ac_trapezoid))]
pub fn prototype(setting: SamplesPerPulse, mode: Mode, lowpass: &[f32], out: &mut [f32])
    ensures { out.new ≡ first_values (length out.old) (by_mode mode (mode_s_trapezoid (per_pulse setting)) (mode_ac_trapezoid (per_pulse setting))) lowpass.now }
{
    match (setting, mode) {
        (SamplesPerPulse::Four, Mode::S) => convolution(&trapezoid::<307>(38, 64), lowpass, out),
        (SamplesPerPulse::Four, Mode::Ac) => convolution(&trapezoid::<278>(40, 40), lowpass, out),
        (SamplesPerPulse::Eight, Mode::S) => convolution(&trapezoid::<614>(76, 128), lowpass, out),
        (SamplesPerPulse::Eight, Mode::Ac) => convolution(&trapezoid::<556>(80, 80), lowpass, out),
    }
}

// Whether each value of a prototype is finite and at most 16 in size.
pub fn all_within_16(values: &[f32]) -> bool
    ensures { result ≡ all_within16 values.now }
{
    values.iter().all(|x| floats::within_f32(*x, 16.0))
}

// Whether a lowpass has the taps of its mode, each finite and at most 16 in size.
#[tactic(auto, unfolding(constants::specs::Setting::by_mode, crate::specs::Accepted::mode_s_taps_accepted, crate::specs::Accepted::mode_ac_taps_accepted))]
pub fn taps_accepted(setting: SamplesPerPulse, mode: Mode, taps: &[f32]) -> bool
    ensures { result ≡ by_mode mode (mode_s_taps_accepted (per_pulse setting) taps.now) (mode_ac_taps_accepted (per_pulse setting) taps.now) }
{
    taps.len() == setting.taps_len(mode) && all_within_16(taps)
}

#[tactic(auto, unfolding(crate::specs::GroupDelay::crosses))]
fn crosses_level(level: f32, a: f32, b: f32) -> bool
    ensures { result ≡ crosses level a b }
{
    a <= level && level < b
}

#[tactic(auto, using(crate::proofs::Delays::sixty_four), unfolding(crate::specs::GroupDelay::delay_at))]
fn delay_at(level: f32, j: usize, a: f32, b: f32) -> f64
    ensures { result ≡ delay_at level j a b }
{
    let from = std::num::f32_to_f64_with_nan(a);
    let to = std::num::f32_to_f64_with_nan(b);
    let at = std::num::f32_to_f64_with_nan(level);
    let tau = (at - from) / (to - from);
    (std::num::nearest_usize_to_f64(j) + tau) / 64.0
}

// Where the level is first crossed, in samples.
#[tactic(auto, using(crate::proofs::LoopSteps::delay_stop, crate::proofs::LoopSteps::delay_on, crate::proofs::LoopSteps::delay_end), unfolding(crate::specs::GroupDelay::group_delay))]
fn crossing(level: f32, prototype: &[f32]) -> Option<f64>
    ensures { result ≡ group_delay level prototype.now }
{
    for j in 0..prototype.len().saturating_sub(1) {
        let a = prototype[j];
        let b = prototype[j + 1];
        if crosses_level(level, a, b) {
            return Some(delay_at(level, j, a, b));
        }
    }
    None
}

// The delay of a prototype of a mode: the Mode A/C filterbank runs faster than the Mode S one.
#[tactic(auto, using(crate::proofs::Delays::ratio_is), unfolding(constants::specs::Setting::by_mode, crate::specs::GroupDelay::mode_ac_group_delay))]
pub fn group_delay(mode: Mode, level: f32, prototype: &[f32]) -> Option<f64>
    ensures { result ≡ by_mode mode (group_delay level prototype.now) (mode_ac_group_delay level prototype.now) }
{
    let delay = crossing(level, prototype)?;
    match mode {
        Mode::S => Some(delay),
        Mode::Ac => Some(delay / (1500.0 / 1450.0)),
    }
}
