// The filterbank, after pulse_shape.rs: the taps at a clock phase, the clock with its step, start and next sample, and the sum of the taps at pulses.
// Each function is equal to a definition of specs/ on every input.
#![tactic(auto)]

ghost use Rattle.std.specs.Prelude.{◌≡◌, ◌+◌, ◌-◌, ◌<◌, length, drop, slice_index_or, cond, take};
ghost use Rattle.std.specs.Float.{binary32, nan};
ghost use Rattle.std.specs.Float.Ieee.{add, mul, sub};
ghost use Rattle.constants.specs.Setting.{per_pulse};
ghost use Rattle.constants.specs.Rate.{branches, prototype_length};
ghost use Rattle.filterbank.specs.Taps.{one, scaled, branch_of, tau_of, branch, between, filter_taps};
ghost use Rattle.filterbank.specs.Clocked.{step_of, start_clock, advance as advanced, in64};
ghost use Rattle.filterbank.specs.PaddedPulsesModel.{pad_pulses, padded_sum};

use constants::{MAX_POSITIONS, SamplesPerPulse};

// The phase times the branches.
#[tactic(auto, unfolding(crate::specs::Taps::scaled))]
fn scaled_phase(setting: SamplesPerPulse, phase: f64) -> f64
    ensures { result ≡ scaled (per_pulse setting) phase }
{
    phase * std::num::nearest_usize_to_f64(setting.branches())
}

// The branch at a phase.
#[tactic(auto, unfolding(crate::specs::Taps::branch_of))]
fn branch_of(setting: SamplesPerPulse, phase: f64) -> usize
    ensures { (result ≡ branch_of (per_pulse setting) phase) × (result < branches (per_pulse setting)) }
{
    let a = floats::to_usize(scaled_phase(setting, phase));
    if a < setting.branches() { a } else { 0 }
}

// How far the phase lies past branch a.
#[tactic(auto, unfolding(crate::specs::Taps::tau_of))]
fn tau_of(setting: SamplesPerPulse, phase: f64, a: usize) -> f32
    requires { a ≡ branch_of (per_pulse setting) phase }
    ensures { result ≡ tau_of (per_pulse setting) phase }
{
    floats::narrow(scaled_phase(setting, phase) - std::num::nearest_usize_to_f64(a))
}

// (1 - tau) * p[i] + tau * p[j].
fn interpolated(p: &[f32], tau: f32, i: usize, j: usize) -> f32
    requires { (i < length p.now) × (j < length p.now) }
    ensures { result ≡ add binary32 (mul binary32 (sub binary32 one tau) (slice_index_or p.now i nan)) (mul binary32 tau (slice_index_or p.now j nan)) }
{
    (1.0 - tau) * p[i] + tau * p[j]
}

// The taps between branch a and branch a + 1.
#[tactic(auto, using(crate::proofs::Literals::seven_taps))]
fn within_bank(setting: SamplesPerPulse, p: &[f32], tau: f32, a: usize) -> [f32; 7]
    requires { (length p.now ≡ prototype_length (per_pulse setting)) × (a + 1 < branches (per_pulse setting)) }
    ensures { result ≡ between tau (branch (per_pulse setting) p.now a) (branch (per_pulse setting) p.now (a + 1)) }
{
    let n = setting.branches();
    let b = a + 1;
    [
        interpolated(p, tau, a, b),
        interpolated(p, tau, a + n, b + n),
        interpolated(p, tau, a + n * 2, b + n * 2),
        interpolated(p, tau, a + n * 3, b + n * 3),
        interpolated(p, tau, a + n * 4, b + n * 4),
        interpolated(p, tau, a + n * 5, b + n * 5),
        interpolated(p, tau, a + n * 6, b + n * 6),
    ]
}

// The taps of the last branch, which goes on to branch 0 from its second tap.
#[tactic(auto, using(crate::proofs::Literals::rolled_taps))]
fn at_bank_end(setting: SamplesPerPulse, p: &[f32], tau: f32) -> [f32; 7]
    requires { length p.now ≡ prototype_length (per_pulse setting) }
    ensures { result ≡ between tau (branch (per_pulse setting) p.now (branches (per_pulse setting) - 1)) (drop 1 (branch (per_pulse setting) p.now 0)) }
{
    let n = setting.branches();
    let a = n - 1;
    [
        interpolated(p, tau, a, n),
        interpolated(p, tau, a + n, n * 2),
        interpolated(p, tau, a + n * 2, n * 3),
        interpolated(p, tau, a + n * 3, n * 4),
        interpolated(p, tau, a + n * 4, n * 5),
        interpolated(p, tau, a + n * 5, n * 6),
        (1.0 - tau) * p[a + n * 6],
    ]
}

// The seven taps at a clock phase.
#[tactic(auto, unfolding(crate::specs::Taps::filter_taps, crate::specs::Taps::next_branch))]
pub fn filter_taps(setting: SamplesPerPulse, prototype: &[f32], phase: f64) -> [f32; 7]
    ensures { result ≡ filter_taps (per_pulse setting) prototype.now phase }
{
    if prototype.len() != setting.prototype_len() {
        return [0.0; 7];
    }
    let a = branch_of(setting, phase);
    let tau = tau_of(setting, phase, a);
    if a + 1 < setting.branches() {
        within_bank(setting, prototype, tau, a)
    } else {
        at_bank_end(setting, prototype, tau)
    }
}

#[derive(Clone, Copy)]
pub struct Clock {
    pub phase: f64,
    pub index: usize,
}

// What a sample adds to the phase.
#[tactic(auto, using(crate::proofs::Literals::is1), unfolding(crate::specs::Clocked::step_of))]
pub fn clock_step(setting: SamplesPerPulse, e: f64) -> f64
    ensures { result ≡ step_of (per_pulse setting) e }
{
    1.0 / std::num::nearest_u64_to_f64(setting.number()) * (1.0 + e)
}

// The clock before the first sample, from a phase in samples.
#[tactic(auto, unfolding(crate::specs::Clocked::start_clock))]
pub fn start_clock(setting: SamplesPerPulse, phase: f64) -> Clock
    ensures { result ≡ start_clock (per_pulse setting) phase }
{
    Clock {
        phase: phase / std::num::nearest_u64_to_f64(setting.number()),
        index: 0,
    }
}

// The clock after one sample more.
#[tactic(auto, using(crate::proofs::Literals::is1), unfolding(crate::specs::Clocked::advance, crate::specs::Clocked::settle))]
pub fn advance(clock: Clock, step: f64) -> Clock
    ensures { result ≡ in64 (advanced step clock) }
{
    let next = clock.phase + step;
    if next >= 1.0 {
        Clock {
            phase: next - 1.0,
            index: clock.index.wrapping_add(1),
        }
    } else {
        Clock {
            phase: next,
            ..clock
        }
    }
}

// Positions with six in front of them and six behind.
pub const PADDED_LEN: usize = MAX_POSITIONS + 12;

// Indices at which a sum reaches a position.
const INDICES: usize = MAX_POSITIONS + 6;

// The first pulses, at most as many as a reply has positions, padded by six positions, so that a sum over them needs no tests of their positions.
#[tactic(auto, using(crate::proofs::Padded::padded))]
pub fn pad_pulses(on: &[bool]) -> [bool; PADDED_LEN]
    ensures { result ≡ pad_pulses (take 240 on.now) }
{
    let n = on.len().min(MAX_POSITIONS);
    let mut out = [false; PADDED_LEN];
    out[6..6 + n].copy_from_slice(&on[..n]);
    out
}

fn added(sum: f32, tap: f32, on: bool) -> f32
    ensures { result ≡ cond on (add binary32 sum tap) sum }
{
    if on { sum + tap } else { sum }
}

// The sum of the taps at whose position there is a pulse.
#[tactic(auto, using(crate::proofs::Literals::sum_past, crate::proofs::Literals::sum_seven))]
pub fn pulse_sum(taps: [f32; 7], padded: &[bool; PADDED_LEN], index: usize) -> f32
    ensures { result ≡ padded_sum taps padded.now index }
{
    if index >= INDICES {
        return 0.0;
    }
    let s0 = added(0.0, taps[0], padded[index + 6]);
    let s1 = added(s0, taps[1], padded[index + 5]);
    let s2 = added(s1, taps[2], padded[index + 4]);
    let s3 = added(s2, taps[3], padded[index + 3]);
    let s4 = added(s3, taps[4], padded[index + 2]);
    let s5 = added(s4, taps[5], padded[index + 1]);
    added(s5, taps[6], padded[index])
}
