// A block of values rotated by the carrier and added into working memory.
// The public function is equal to a definition of specs/ on every input.
#![tactic(auto)]

ghost use Rattle.std.specs.Prelude.{◌≡◌, ◌≤◌, ◌+◌, ◌-◌, ◌*◌, length, map, take, drop, pos};
ghost use Rattle.std.specs.Simd.Lanes.{Each1};
ghost use Rattle.std.specs.Float.{binary64};
ghost use Rattle.std.specs.Float.Ieee.{of_int, lt};
ghost use Rattle.constants.specs.Setting.{per_pulse};
ghost use Rattle.math.specs.Carrier.{reduced, sine_sum, cosine_sum};
ghost use Rattle.reply_samples.specs.RingModel.{added_reply};
ghost use Rattle.block_rotate.specs.BlockSamples.{samples_at};
ghost use Rattle.block_rotate.specs.BlockModel.{bit, limits_above, turned_sine, turned_cosine, zipped, scaled_by, added_line};

use constants::SamplesPerPulse;
use floats::BLOCK;
use math::OUTER_LIMIT;
use std::f64::consts::{FRAC_PI_2, FRAC_PI_4};
use std::simd::prelude::*;

// Values that the processor takes at once.
const ROW: usize = 8;

const ROWS: usize = BLOCK / ROW;

// 2^52, from which on an `f64` counts by whole numbers, and its pattern.
const WHOLE: f64 = 4503599627370496.0;

const WHOLE_BITS: u64 = 0x4330_0000_0000_0000;

// 1 for each phase below a limit, and else 0.
fn below(p: f64x8, limit: f64) -> u64x8
    ensures { result ≡ map (λ x. bit (lt x limit)) p }
{
    p.simd_lt(f64x8::splat(limit))
        .select(u64x8::splat(1), u64x8::splat(0))
}

// How many limits of the reduction lie above each phase. None lies above a NaN, since no comparison with it holds.
fn limits_above(p: f64x8) -> u64x8
    ensures { result ≡ map limits_above p }
{
    below(p, -OUTER_LIMIT) + below(p, -FRAC_PI_4) + below(p, FRAC_PI_4) + below(p, OUTER_LIMIT)
}

// The casts of numbers from 0 to 4, by bits, since the compiler takes several of them at once.
fn as_floats(n: u64x8) -> f64x8
    requires { Each1 (λ k. k ≤ 4) n }
    ensures { result ≡ map (λ k. of_int binary64 (pos k)) n }
{
    f64x8::from_bits(n + u64x8::splat(WHOLE_BITS)) - f64x8::splat(WHOLE)
}

// What is left of each phase: two quarters of a turn are taken off, less one for each limit above it.
fn reduce(p: f64x8, n: u64x8) -> f64x8
    requires { n ≡ map limits_above p }
    ensures { result ≡ map (λ x. (reduced x).r) p }
{
    p - (f64x8::splat(2.0) - as_floats(n)) * f64x8::splat(FRAC_PI_2)
}

fn sines(r: f64x8) -> f64x8
    ensures { result ≡ map sine_sum r }
{
    let z = r * r;
    let a = f64x8::splat(1.6059043836821613e-10) * z + f64x8::splat(-2.505210838544172e-8);
    let b = a * z + f64x8::splat(2.7557319223985893e-6);
    let c = b * z + f64x8::splat(-0.0001984126984126984);
    let d = c * z + f64x8::splat(0.008333333333333333);
    let e = d * z + f64x8::splat(-0.16666666666666666);
    r * (e * z + f64x8::splat(1.0))
}

fn cosines(r: f64x8) -> f64x8
    ensures { result ≡ map cosine_sum r }
{
    let z = r * r;
    let a = f64x8::splat(-1.1470745597729725e-11) * z + f64x8::splat(2.08767569878681e-9);
    let b = a * z + f64x8::splat(-2.755731922398589e-7);
    let c = b * z + f64x8::splat(2.48015873015873e-5);
    let d = c * z + f64x8::splat(-0.001388888888888889);
    let e = d * z + f64x8::splat(0.041666666666666664);
    let f = e * z + f64x8::splat(-0.5);
    f * z + f64x8::splat(1.0)
}

// How many limits lie above each phase, and the sine and cosine of what is left of it.
fn reduce_all(
    phases: &[f64; BLOCK],
    turns: &mut [u32; BLOCK],
    s: &mut [f64; BLOCK],
    c: &mut [f64; BLOCK],
)
    ensures { (turns.new ≡ map limits_above phases.now) × (s.new ≡ map (λ p. sine_sum (reduced p).r) phases.now) × (c.new ≡ map (λ p. cosine_sum (reduced p).r) phases.now) }
{
    for k in 0..ROWS {
        let p = f64x8::from_slice(&phases[k * ROW..]);
        let n = limits_above(p);
        let r = reduce(p, n);
        n.cast::<u32>().copy_to_slice(&mut turns[k * ROW..]);
        sines(r).copy_to_slice(&mut s[k * ROW..]);
        cosines(r).copy_to_slice(&mut c[k * ROW..]);
    }
}

// The sine of each phase, from the number of limits above it and the sine and cosine of what is left: the cosine's where that number is odd, and negative where it is 0, 3 or 4.
fn turned_sines(n: u32x8, s: f32x8, c: f32x8) -> f32x8
    requires { Each1 (λ k. k ≤ 4) n }
    ensures { result ≡ turned_sine n s c }
{
    let one = u32x8::splat(1);
    let x = (n & one).simd_eq(one).select(c, s);
    let negative = (n + one & u32x8::splat(2)).simd_eq(u32x8::splat(0));
    negative.select(-x, x)
}

// The cosine: the sine's where that number is odd, and negative where it is 0, 1 or 4.
fn turned_cosines(n: u32x8, s: f32x8, c: f32x8) -> f32x8
    requires { Each1 (λ k. k ≤ 4) n }
    ensures { result ≡ turned_cosine n s c }
{
    let one = u32x8::splat(1);
    let x = (n & one).simd_eq(one).select(s, c);
    let negative = (n & u32x8::splat(2)).simd_eq(u32x8::splat(0));
    negative.select(-x, x)
}

// The real and the imaginary parts of a block's samples.
#[derive(Clone, Copy)]
struct Samples {
    re: [f32; BLOCK],
    im: [f32; BLOCK],
}

// Each value times the amplitude, and that times the cosine and the sine of its phase, row by row.
fn turn_all(
    values: &[f32; BLOCK],
    amplitude: f32,
    turns: &[u32; BLOCK],
    s: &[f32; BLOCK],
    c: &[f32; BLOCK],
    out: &mut Samples,
)
    requires { Each1 (λ k. k ≤ 4) turns.now }
    ensures { (out.new.re ≡ scaled_by amplitude values.now (turned_cosine turns.now s.now c.now)) × (out.new.im ≡ scaled_by amplitude values.now (turned_sine turns.now s.now c.now)) }
{
    for k in 0..ROWS {
        let x = f32x8::splat(amplitude) * f32x8::from_slice(&values[k * ROW..]);
        let n = u32x8::from_slice(&turns[k * ROW..]);
        let s = f32x8::from_slice(&s[k * ROW..]);
        let c = f32x8::from_slice(&c[k * ROW..]);
        (x * turned_cosines(n, s, c)).copy_to_slice(&mut out.re[k * ROW..]);
        (x * turned_sines(n, s, c)).copy_to_slice(&mut out.im[k * ROW..]);
    }
}

// The samples of a block of values and phases.
fn rotate(values: &[f32; BLOCK], amplitude: f32, carriers: &[f64; BLOCK], out: &mut Samples)
    ensures { zipped out.new.re out.new.im ≡ samples_at amplitude values.now carriers.now }
{
    let mut turns = [0; BLOCK];
    let mut s = [0.0; BLOCK];
    let mut c = [0.0; BLOCK];
    let mut sine = [0.0; BLOCK];
    let mut cosine = [0.0; BLOCK];
    reduce_all(carriers, &mut turns, &mut s, &mut c);
    floats::narrow_block(&s, &mut sine);
    floats::narrow_block(&c, &mut cosine);
    turn_all(values, amplitude, &turns, &sine, &cosine, out);
}

// Adds samples from one to before another where the ring goes on without a break.
fn add_stretch(samples: &Samples, from: usize, to: usize, memory: &mut [f32], slot: usize)
    requires { (from ≤ to) × (to ≤ 32) × (2 * (slot + (to - from)) ≤ length memory.old) }
    ensures { (memory.new ≡ added_line memory.old slot (take (to - from) (drop from (zipped samples.now.re samples.now.im)))) × (length memory.new ≡ length memory.old) }
{
    for i in from..to {
        let at = 2 * (slot + (i - from));
        memory[at] += samples.re[i];
        memory[at + 1] += samples.im[i];
    }
}

// Adds the first n values of a block, each times the amplitude and rotated by its carrier's phase, into working memory from a slot on. Where the memory has another length or the slot is none of it, nothing is added.
#[tactic(auto, unfolding(reply_samples::specs::RingModel::is_slot, reply_samples::specs::RingModel::added_reply))]
pub fn add(
    setting: SamplesPerPulse,
    values: &[f32; BLOCK],
    n: usize,
    amplitude: f32,
    carriers: &[f64; BLOCK],
    memory: &mut [f32],
    slot: usize,
)
    ensures { memory.new ≡ added_reply (per_pulse setting) memory.old slot (take n (samples_at amplitude values.now carriers.now)) }
{
    if memory.len() != setting.memory_len() || slot >= setting.ring_slots() {
        return;
    }
    let n = n.min(BLOCK);
    let mut samples = Samples {
        re: [0.0; BLOCK],
        im: [0.0; BLOCK],
    };
    rotate(values, amplitude, carriers, &mut samples);
    let m = n.min(setting.ring_slots() - slot);
    add_stretch(&samples, 0, m, memory, slot);
    add_stretch(&samples, m, n, memory, 0);
}
