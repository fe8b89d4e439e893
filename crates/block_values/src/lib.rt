// The filterbank's clock and the carrier's phase before each sample of a block, and the filterbank's values there. Each public function is equal to definitions of specs/ on every input.
#![tactic(auto)]

ghost use Rattle.std.specs.Prelude.{◌≡◌, ◌≤◌, ◌<◌, ◌-◌, false, min, length, ◌+◌, ◌*◌, true, T, not, is_nan, pos, from_bits, to_bits, slice_index_or, slice_set};
ghost use Rattle.math.specs.Phase.{phase_wrap_once};
ghost use Rattle.block_values.specs.Ticks.{ticks, tick_after, written};
ghost use Rattle.block_values.specs.TicksModel.{filled, wrapped};
ghost use Rattle.std.specs.Float.{nan, binary32, binary64};
ghost use Rattle.std.specs.Float.Ieee.{of_int, add, sub};
ghost use Rattle.constants.specs.Setting.{per_pulse};
ghost use Rattle.constants.specs.Rate.{branches, prototype_length};
ghost use Rattle.filterbank.specs.Taps.{one};
ghost use Rattle.block_values.specs.BlockValues.{values_at, values_left};
ghost use Rattle.block_values.specs.BlockValuesModel.{in_unit, InUnit, EachInUnit, Placed, EachPlaced, Found, OneIndex, tap_at, last_tap_at, plus_where, lane, value_in};

use constants::SamplesPerPulse;
use filterbank::{Clock, PADDED_LEN};
use floats::BLOCK;
use std::f64::consts::PI;
use std::simd::prelude::*;

// The clock and the carrier's phase before a sample.
#[derive(Clone, Copy)]
pub struct Tick {
    pub clock: Clock,
    pub carrier: f64,
}

// What a sample adds to the clock's phase and to the carrier's, and the limit of the clock's indices.
#[derive(Clone, Copy)]
pub struct Pace {
    pub step: f64,
    pub rate: f64,
    pub limit: usize,
}

// Where a block ends: the clock and the phase after it, and how many samples it has.
#[derive(Clone, Copy)]
pub struct Ended {
    pub tick: Tick,
    pub n: usize,
}

// The clock's phase and index and the carrier's phase before each sample of a block.
#[derive(Clone, Copy)]
pub struct Block {
    pub phases: [f64; BLOCK],
    pub indices: [usize; BLOCK],
    pub carriers: [f64; BLOCK],
}

// A carrier that is to be wrapped.
#[tactic(auto, using(crate::proofs::Filled::idle))]
fn is_beyond(carrier: f64) -> bool
    ensures { result ≡ false → phase_wrap_once carrier ≡ carrier }
{
    carrier >= PI || carrier < -PI
}

// Goes on until the carrier is to be wrapped, the index is the limit or there are `most` samples. A pass of the loop waits for two additions alone: the wrap, if it were computed here, would be waited for in each.
fn go_on(from: Ended, most: usize, pace: Pace, block: &mut Block) -> Ended
    requires { (from.n < most) × (most ≤ 32) × (from.tick.clock.index < pace.limit) }
    ensures rest { filled (most - result.n) pace (wrapped result) block.new ≡ filled (most - from.n) pace from block.old }
    ensures more { from.n < result.n }
    ensures within { result.n ≤ most }
{
    let mut phase = from.tick.clock.phase;
    let mut index = from.tick.clock.index;
    let mut carrier = from.tick.carrier;
    let mut i = from.n;
    while i < most {
        block.phases[i] = phase;
        block.indices[i] = index;
        block.carriers[i] = carrier;
        i += 1;
        phase = phase + pace.step;
        carrier = carrier + pace.rate;
        if phase >= 1.0 {
            phase = phase - 1.0;
            index = index.wrapping_add(1);
            if index >= pace.limit {
                break;
            }
        }
        if is_beyond(carrier) {
            break;
        }
    }
    Ended {
        tick: Tick {
            clock: Clock { phase, index },
            carrier,
        },
        n: i,
    }
}

// Writes at most `most` samples of a block, until the index is the limit.
pub fn fill_clocks(first: Tick, most: usize, pace: Pace, block: &mut Block) -> Ended
    ensures within { result.n ≤ min most 32 }
    ensures some { 0 < most → first.clock.index < pace.limit → 0 < result.n }
    ensures block { let ts = ticks (min most 32) pace first in
        (result ≡ record { tick = tick_after (length ts) pace first; n = length ts })
        × (block.new ≡ record { phases = written (λ t. t.clock.phase) ts block.old.phases; indices = written (λ t. t.clock.index) ts block.old.indices; carriers = written (λ t. t.carrier) ts block.old.carriers }) }
{
    let most = most.min(BLOCK);
    let mut at = Ended { tick: first, n: 0 };
    while at.n < most && at.tick.clock.index < pace.limit {
        let next = go_on(at, most, pace, block);
        at = Ended {
            tick: Tick {
                clock: next.tick.clock,
                carrier: math::phase_wrap_once_f64(next.tick.carrier),
            },
            n: next.n,
        };
    }
    at
}

// Indices at which a sum reaches a position.
const INDICES: usize = PADDED_LEN - 6;

// Phases that the processor tests at once.
const ROW: usize = 8;

// A row's phases lie from 0.0 to below 1.0.
fn row_in_unit(x: f64x8) -> bool
    ensures { result ≡ true → EachInUnit x }
{
    (x.simd_ge(f64x8::splat(0.0)) & x.simd_lt(f64x8::splat(1.0))).all()
}

// All lie from 0.0 to below 1.0.
fn all_in_unit(x: &[f64; BLOCK]) -> bool
    ensures { result ≡ true → InUnit x.now 32 }
{
    let (rows, _) = x.as_chunks::<ROW>();
    for row in rows {
        if !row_in_unit(f64x8::from_array(*row)) {
            return false;
        }
    }
    true
}

// The whole part of a scaled phase, most often: the sum is rounded up for a phase just below a branch.
fn guessed(t: f64) -> usize
    requires { T (not (is_nan (add binary64 t (from_bits binary64 0x4080_0000_0000_0000)))) }
    ensures { result < 512 }
{
    (f64::to_bits(t + 512.0) / 0x800_0000_0000 % 512) as usize
}

// A whole number below 512, by its pattern: the compiler takes several of these at once.
fn as_float(a: usize) -> f64
    requires { a < 512 }
    ensures { result ≡ of_int binary64 (pos a) }
{
    f64::from_bits(0x4330_0000_0000_0000 + a as u64) - 4503599627370496.0
}

// 0 for a number from 0.0 to below 1.0 and 1 for any other, by the exponent and the sign.
fn outside_unit(x: f64) -> u64
    requires { T (not (is_nan x)) }
    ensures { (result ≤ 1) × (result ≡ 0 → to_bits binary64 x < 0x3ff0_0000_0000_0000) }
{
    (f64::to_bits(x) / 0x10_0000_0000_0000 + 3073) / 4096
}

// A branch that is guessed at a phase, how far the phase lies past it, and 1 if the guess is wrong.
#[derive(Clone, Copy)]
struct Place {
    branch: usize,
    rest: f64,
    wrong: u64,
}

fn place_at(setting: SamplesPerPulse, scale: f64, phase: f64) -> Place
    requires { (scale ≡ of_int binary64 (pos (branches (per_pulse setting)))) × (in_unit phase ≡ true) }
    ensures { (result.wrong ≤ 1) × (result.wrong ≡ 0 → Placed (per_pulse setting) phase result.branch result.rest) }
{
    let t = phase * scale;
    let branch = guessed(t);
    let rest = t - as_float(branch);
    Place {
        branch,
        rest,
        wrong: outside_unit(rest),
    }
}

// The branch that is guessed at each phase and how far the phase lies past it; whether all are right.
fn find_places(
    setting: SamplesPerPulse,
    phases: &[f64; BLOCK],
    at: &mut [usize; BLOCK],
    rest: &mut [f64; BLOCK],
) -> bool
    requires { InUnit phases.now 32 }
    ensures { result ≡ true → EachPlaced (per_pulse setting) phases.now at.new rest.new 32 }
{
    let scale = std::num::nearest_usize_to_f64(setting.branches());
    let mut wrong: u64 = 0;
    for i in 0..BLOCK {
        let place = place_at(setting, scale, phases[i]);
        at[i] = place.branch;
        rest[i] = place.rest;
        wrong += place.wrong;
    }
    wrong == 0
}

fn tap(p: &[f32], u: f32, tau: f32, i: usize) -> f32
    requires { i + 1 < length p.now }
    ensures { result ≡ tap_at p.now u tau i }
{
    u * p[i] + tau * p[i + 1]
}

fn last_tap(p: &[f32], u: f32, tau: f32, i: usize) -> f32
    requires { i < length p.now }
    ensures { result ≡ last_tap_at p.now u tau i }
{
    if i + 1 < p.len() {
        tap(p, u, tau, i)
    } else {
        u * p[i]
    }
}

#[derive(Clone, Copy)]
struct Four {
    v0: f32,
    v1: f32,
    v2: f32,
    v3: f32,
}

// The branches of four samples, and how far each lies past its branch and before the next.
#[derive(Clone, Copy)]
struct Spots {
    a0: usize,
    a1: usize,
    a2: usize,
    a3: usize,
    t: Four,
    u: Four,
}

// The tap at an offset added to four sums, where its pulse is on.
fn plus(p: &[f32], x: Spots, offset: usize, on: bool, s: Four) -> Four
    requires { (x.a0 + offset + 1 < length p.now) × (x.a1 + offset + 1 < length p.now) × (x.a2 + offset + 1 < length p.now) × (x.a3 + offset + 1 < length p.now) }
    ensures v0 { result.v0 ≡ plus_where on s.v0 (tap_at p.now x.u.v0 x.t.v0 (x.a0 + offset)) }
    ensures v1 { result.v1 ≡ plus_where on s.v1 (tap_at p.now x.u.v1 x.t.v1 (x.a1 + offset)) }
    ensures v2 { result.v2 ≡ plus_where on s.v2 (tap_at p.now x.u.v2 x.t.v2 (x.a2 + offset)) }
    ensures v3 { result.v3 ≡ plus_where on s.v3 (tap_at p.now x.u.v3 x.t.v3 (x.a3 + offset)) }
{
    if on {
        Four {
            v0: s.v0 + tap(p, x.u.v0, x.t.v0, x.a0 + offset),
            v1: s.v1 + tap(p, x.u.v1, x.t.v1, x.a1 + offset),
            v2: s.v2 + tap(p, x.u.v2, x.t.v2, x.a2 + offset),
            v3: s.v3 + tap(p, x.u.v3, x.t.v3, x.a3 + offset),
        }
    } else {
        s
    }
}

fn plus_last(p: &[f32], x: Spots, offset: usize, on: bool, s: Four) -> Four
    requires { (x.a0 + offset < length p.now) × (x.a1 + offset < length p.now) × (x.a2 + offset < length p.now) × (x.a3 + offset < length p.now) }
    ensures v0 { result.v0 ≡ plus_where on s.v0 (last_tap_at p.now x.u.v0 x.t.v0 (x.a0 + offset)) }
    ensures v1 { result.v1 ≡ plus_where on s.v1 (last_tap_at p.now x.u.v1 x.t.v1 (x.a1 + offset)) }
    ensures v2 { result.v2 ≡ plus_where on s.v2 (last_tap_at p.now x.u.v2 x.t.v2 (x.a2 + offset)) }
    ensures v3 { result.v3 ≡ plus_where on s.v3 (last_tap_at p.now x.u.v3 x.t.v3 (x.a3 + offset)) }
{
    if on {
        Four {
            v0: s.v0 + last_tap(p, x.u.v0, x.t.v0, x.a0 + offset),
            v1: s.v1 + last_tap(p, x.u.v1, x.t.v1, x.a1 + offset),
            v2: s.v2 + last_tap(p, x.u.v2, x.t.v2, x.a2 + offset),
            v3: s.v3 + last_tap(p, x.u.v3, x.t.v3, x.a3 + offset),
        }
    } else {
        s
    }
}

// The values of four samples of one index, on a prototype of n branches.
#[tactic(auto, unfolding(crate::specs::BlockValuesModel::lane))]
fn four_values(p: &[f32], n: usize, padded: &[bool; PADDED_LEN], index: usize, x: Spots) -> Four
    requires { (length p.now ≡ n * 7) × (n ≤ 512) × (x.a0 < n) × (x.a1 < n) × (x.a2 < n) × (x.a3 < n) }
    ensures v0 { result.v0 ≡ lane p.now n padded.now index x.a0 x.t.v0 x.u.v0 }
    ensures v1 { result.v1 ≡ lane p.now n padded.now index x.a1 x.t.v1 x.u.v1 }
    ensures v2 { result.v2 ≡ lane p.now n padded.now index x.a2 x.t.v2 x.u.v2 }
    ensures v3 { result.v3 ≡ lane p.now n padded.now index x.a3 x.t.v3 x.u.v3 }
{
    let s0 = Four {
        v0: 0.0,
        v1: 0.0,
        v2: 0.0,
        v3: 0.0,
    };
    if index >= INDICES {
        return s0;
    }
    let s1 = plus(p, x, 0, padded[index + 6], s0);
    let s2 = plus(p, x, n, padded[index + 5], s1);
    let s3 = plus(p, x, n * 2, padded[index + 4], s2);
    let s4 = plus(p, x, n * 3, padded[index + 3], s3);
    let s5 = plus(p, x, n * 4, padded[index + 2], s4);
    let s6 = plus(p, x, n * 5, padded[index + 1], s5);
    plus_last(p, x, n * 6, padded[index], s6)
}

fn plus_one(p: &[f32], u: f32, tau: f32, i: usize, on: bool, s: f32) -> f32
    requires { i + 1 < length p.now }
    ensures { result ≡ plus_where on s (tap_at p.now u tau i) }
{
    if on { s + tap(p, u, tau, i) } else { s }
}

// The value of one sample.
#[tactic(auto, unfolding(crate::specs::BlockValuesModel::lane))]
fn one_value(
    p: &[f32],
    n: usize,
    padded: &[bool; PADDED_LEN],
    index: usize,
    a: usize,
    tau: f32,
) -> f32
    requires { (length p.now ≡ n * 7) × (n ≤ 512) × (a < n) }
    ensures { result ≡ lane p.now n padded.now index a tau (sub binary32 one tau) }
{
    if index >= INDICES {
        return 0.0;
    }
    let u = 1.0 - tau;
    let s1 = plus_one(p, u, tau, a, padded[index + 6], 0.0);
    let s2 = plus_one(p, u, tau, a + n, padded[index + 5], s1);
    let s3 = plus_one(p, u, tau, a + n * 2, padded[index + 4], s2);
    let s4 = plus_one(p, u, tau, a + n * 3, padded[index + 3], s3);
    let s5 = plus_one(p, u, tau, a + n * 4, padded[index + 2], s4);
    let s6 = plus_one(p, u, tau, a + n * 5, padded[index + 1], s5);
    if padded[index] {
        s6 + last_tap(p, u, tau, a + n * 6)
    } else {
        s6
    }
}

// There are four samples from i on, and they have one index.
fn alike(indices: &[usize; BLOCK], i: usize, n: usize) -> bool
    requires { (i < n) × (n ≤ 32) }
    ensures { result ≡ true → (i + 4 ≤ n) × OneIndex indices.now i }
{
    i + 4 <= n
        && indices[i + 1] == indices[i]
        && indices[i + 2] == indices[i]
        && indices[i + 3] == indices[i]
}

fn spots_at(at: &[usize; BLOCK], tau: &[f32; BLOCK], i: usize) -> Spots
    requires { i + 4 ≤ 32 }
    ensures a0 { result.a0 ≡ slice_index_or at.now i 0 }
    ensures a1 { result.a1 ≡ slice_index_or at.now (i + 1) 0 }
    ensures a2 { result.a2 ≡ slice_index_or at.now (i + 2) 0 }
    ensures a3 { result.a3 ≡ slice_index_or at.now (i + 3) 0 }
    ensures t0 { result.t.v0 ≡ slice_index_or tau.now i nan }
    ensures t1 { result.t.v1 ≡ slice_index_or tau.now (i + 1) nan }
    ensures t2 { result.t.v2 ≡ slice_index_or tau.now (i + 2) nan }
    ensures t3 { result.t.v3 ≡ slice_index_or tau.now (i + 3) nan }
    ensures u0 { result.u.v0 ≡ sub binary32 one (slice_index_or tau.now i nan) }
    ensures u1 { result.u.v1 ≡ sub binary32 one (slice_index_or tau.now (i + 1) nan) }
    ensures u2 { result.u.v2 ≡ sub binary32 one (slice_index_or tau.now (i + 2) nan) }
    ensures u3 { result.u.v3 ≡ sub binary32 one (slice_index_or tau.now (i + 3) nan) }
{
    let t = Four {
        v0: tau[i],
        v1: tau[i + 1],
        v2: tau[i + 2],
        v3: tau[i + 3],
    };
    Spots {
        a0: at[i],
        a1: at[i + 1],
        a2: at[i + 2],
        a3: at[i + 3],
        t,
        u: Four {
            v0: 1.0 - t.v0,
            v1: 1.0 - t.v1,
            v2: 1.0 - t.v2,
            v3: 1.0 - t.v3,
        },
    }
}

// A filterbank at a block: its prototype, the padded pulses that it runs over, and the branch and tau that were found at each clock.
#[derive(Clone, Copy)]
struct Bank<'a> {
    setting: SamplesPerPulse,
    prototype: &'a [f32],
    padded: &'a [bool; PADDED_LEN],
    at: &'a [usize; BLOCK],
    tau: &'a [f32; BLOCK],
}

// Writes four values of one index.
fn put_four(b: Bank, block: &Block, i: usize, values: &mut [f32])
    requires bank { length b.prototype.now ≡ prototype_length (per_pulse b.setting) }
    requires found { Found (per_pulse b.setting) block.now.phases b.at.now b.tau.now }
    requires room { (i + 4 ≤ 32) × (i + 4 ≤ length values.old) }
    requires one_index { OneIndex block.now.indices i }
    ensures { let v = value_in (per_pulse b.entry.setting) b.entry.prototype.now b.entry.padded.now block.now.phases block.now.indices in
        values.new ≡ slice_set (slice_set (slice_set (slice_set values.old i (v i)) (i + 1) (v (i + 1))) (i + 2) (v (i + 2))) (i + 3) (v (i + 3)) }
{
    let index = block.indices[i];
    let spots = spots_at(b.at, b.tau, i);
    let v = four_values(b.prototype, b.setting.branches(), b.padded, index, spots);
    values[i] = v.v0;
    values[i + 1] = v.v1;
    values[i + 2] = v.v2;
    values[i + 3] = v.v3;
}

// Writes one value.
fn put_one(b: Bank, block: &Block, i: usize, values: &mut [f32])
    requires bank { length b.prototype.now ≡ prototype_length (per_pulse b.setting) }
    requires found { Found (per_pulse b.setting) block.now.phases b.at.now b.tau.now }
    requires room { (i < 32) × (i < length values.old) }
    ensures { values.new ≡ slice_set values.old i (value_in (per_pulse b.entry.setting) b.entry.prototype.now b.entry.padded.now block.now.phases block.now.indices i) }
{
    values[i] = one_value(
        b.prototype,
        b.setting.branches(),
        b.padded,
        block.indices[i],
        b.at[i],
        b.tau[i],
    );
}

// By fours where there is one index and one by one else, over the branches that were found.
fn by_fours(b: Bank, block: &Block, values: &mut [f32])
    requires bank { length b.prototype.now ≡ prototype_length (per_pulse b.setting) }
    requires found { Found (per_pulse b.setting) block.now.phases b.at.now b.tau.now }
    ensures { values.new ≡ values_left (values_at (per_pulse b.entry.setting) b.entry.prototype.now b.entry.padded.now block.now.phases block.now.indices) values.old }
{
    let n = values.len().min(BLOCK);
    let mut i: usize = 0;
    while i < n {
        if alike(&block.indices, i, n) {
            put_four(b, block, i, values);
            i += 4;
        } else {
            put_one(b, block, i, values);
            i += 1;
        }
    }
}

// One by one, whatever the phases and the prototype.
fn by_ones(
    setting: SamplesPerPulse,
    p: &[f32],
    padded: &[bool; PADDED_LEN],
    block: &Block,
    values: &mut [f32],
)
    ensures { values.new ≡ values_left (values_at (per_pulse setting) p.now padded.now block.now.phases block.now.indices) values.old }
{
    for i in 0..values.len().min(BLOCK) {
        let taps = filterbank::filter_taps(setting, p, block.phases[i]);
        values[i] = filterbank::pulse_sum(taps, padded, block.indices[i]);
    }
}

// Writes the values at a block's clocks, as many as `values` holds.
pub fn fill(
    setting: SamplesPerPulse,
    p: &[f32],
    padded: &[bool; PADDED_LEN],
    block: &Block,
    values: &mut [f32],
)
    ensures { values.new ≡ values_left (values_at (per_pulse setting) p.now padded.now block.now.phases block.now.indices) values.old }
{
    let mut at = [0; BLOCK];
    let mut rest = [0.0; BLOCK];
    let mut tau = [0.0; BLOCK];
    if p.len() == setting.prototype_len()
        && all_in_unit(&block.phases)
        && find_places(setting, &block.phases, &mut at, &mut rest)
    {
        floats::narrow_block(&rest, &mut tau);
        let bank = Bank {
            setting,
            prototype: p,
            padded,
            at: &at,
            tau: &tau,
        };
        by_fours(bank, block, values);
    } else {
        by_ones(setting, p, padded, block, values);
    }
}
