// Floats as Rust has them: `as f32`, as integers, as bit patterns, and tests of their range. Each function is equal to a definition of specs/ or of the kit's floats on every input.
// `as f32` is std's rounding, with a shorter way for the normal range.
#![tactic(auto)]

ghost use Rattle.std.specs.Prelude.{◌≡◌, ◌%◌, ◌<◌, ◌≤◌, true, T, not, map, is_nan, from_bits};
ghost use Rattle.std.specs.Float.{binary64, binary32};
ghost use Rattle.std.specs.Simd.Lanes.{Each1};
ghost use Rattle.floats.specs.Narrow.{narrow as narrowed};
ghost use Rattle.floats.specs.BlockModel.{Plain, AllPlain, IsPlain};
ghost use Rattle.std.specs.Float.Ieee.{to_unsigned, of_bits, to_bits};
ghost use Rattle.floats.specs.Ceil.{ceil_signed};
ghost use Rattle.std.specs.Float.Ieee.Scale.{finite as is_finite};
ghost use Rattle.floats.specs.Range.{within as isWithin};

use std::simd::prelude::*;

// The sign's bit, and without it the patterns of the least normal `f32` and of the first `f64` beyond the normal range.
const SIGN: u64 = 0x8000_0000_0000_0000;

const LEAST_NORMAL: u64 = 0x3810_0000_0000_0000;

const BEYOND_NORMAL: u64 = 0x47e0_0000_0000_0000;

// The `f32` of a pattern of zero or in the normal range: rounded as a whole to its upper 35 bits it is a value that `f32` holds, so that the cast loses nothing.
#[tactic(auto, using(crate::proofs::PlainBits::rounded_plain, crate::proofs::PlainBits::holds_plain, crate::proofs::PlainBits::no_nan_plain), unfolding(crate::proofs::Widening::upper))]
fn narrow_bits(bits: u64) -> f32
    requires { IsPlain bits }
    ensures { result ≡ narrowed (from_bits binary64 bits) }
{
    let upper = (bits + 0xfff_ffff + bits / 0x2000_0000 % 2) / 0x2000_0000;
    f64::from_bits(upper * 0x2000_0000) as f32
}

// The same of the value.
#[tactic(auto, using(crate::proofs::Narrowing::by_bits))]
fn narrow_normal(x: f64) -> f32
    requires { Plain x }
    ensures { result ≡ narrowed x }
{
    narrow_bits(f64::to_bits(x))
}

// Rust's `x as f32`. The normal range apart, for speed: nearly all values lie there, and std's function works each out from its digits.
#[tactic(auto, using(crate::proofs::Nan::not_nan, crate::proofs::Narrowing::nan_narrowed, crate::proofs::Narrowing::narrow_is, crate::proofs::Narrowing::by_bits))]
pub fn narrow(x: f64) -> f32
    ensures { result ≡ narrowed x }
{
    if x != x {
        return 0.0 / 0.0;
    }
    let bits = f64::to_bits(x);
    let size = bits % SIGN;
    if size < LEAST_NORMAL || BEYOND_NORMAL <= size {
        return std::num::nearest_f64_to_f32(x);
    }
    narrow_normal(x)
}

// Values of a block.
pub const BLOCK: usize = 32;

// Values of a row.
const ROW: usize = 8;

// Bounds of a square, 2^-250 and 2^250. A value below the normal range has a square of at most 2^-252, and one beyond it a square of at least 2^254, also as rounded.
const LEAST_SQUARE: f64 = 5.527147875260445e-76;

const GREATEST_SQUARE: f64 = 1.8092513943330656e75;

// True only where each value of a row is zero or in the normal range. By its square, which has no sign, and is a NaN for a NaN. The processor compares several at once.
fn row_is_plain(x: f64x8) -> bool
    ensures { result ≡ true → Each1 Plain x }
{
    let square = x * x;
    let large = square.simd_ge(f64x8::splat(LEAST_SQUARE)) | x.simd_eq(f64x8::splat(0.0));
    (large & square.simd_le(f64x8::splat(GREATEST_SQUARE))).all()
}

// All values are zero or in the normal range.
fn all_plain(x: &[f64; BLOCK]) -> bool
    ensures { result ≡ true → AllPlain x.now }
{
    let (rows, _) = x.as_chunks::<ROW>();
    for row in rows {
        if !row_is_plain(f64x8::from_array(*row)) {
            return false;
        }
    }
    true
}

// Each value of the normal range as `f32`.
fn narrow_plainly(x: &[f64; BLOCK], y: &mut [f32; BLOCK])
    requires { AllPlain x.now }
    ensures { y.new ≡ map narrowed x.now }
{
    for i in 0..BLOCK {
        y[i] = narrow_normal(x[i]);
    }
}

// Any value as `f32`.
fn narrow_each(x: &[f64; BLOCK], y: &mut [f32; BLOCK])
    ensures { y.new ≡ map narrowed x.now }
{
    for i in 0..BLOCK {
        y[i] = narrow(x[i]);
    }
}

// Rust's `as f32` of each value of a block.
pub fn narrow_block(x: &[f64; BLOCK], y: &mut [f32; BLOCK])
    ensures { y.new ≡ map narrowed x.now }
{
    if all_plain(x) {
        narrow_plainly(x, y);
    } else {
        narrow_each(x, y);
    }
}

// Rust's `x.ceil() as i64`.
#[tactic(auto, using(crate::proofs::CeilAsFloat::std_ceil_signed))]
pub fn ceil_to_i64(x: f64) -> i64
    ensures { result ≡ ceil_signed 63 x }
{
    std::num::saturating_f64_to_i64(x.ceil())
}

// Rust's `x as u64`; and `x as usize`, each one call of std's: a trait for both would be no plainer.
pub fn to_u64(x: f64) -> u64
    ensures { result ≡ to_unsigned 64 x }
{
    std::num::saturating_f64_to_u64(x)
}

// Rust's `x as usize`.
pub fn to_usize(x: f64) -> usize
    ensures { result ≡ to_unsigned 64 x }
{
    std::num::saturating_f64_to_usize(x)
}

// x is neither a NaN nor an infinity.
#[tactic(auto, using(crate::proofs::Ranges::finite_is))]
pub fn finite(x: f64) -> bool
    ensures { result ≡ is_finite x }
{
    x.is_finite()
}

// The size of x is at most limit. A NaN is within no limit.
#[tactic(auto, using(crate::proofs::Ranges::within_is))]
pub fn within(x: f64, limit: f64) -> bool
    ensures { result ≡ isWithin x limit }
{
    x.abs() <= limit
}

// The same of an `f32`, for speed: widened to `f64`, the loop that tests a call's noise would take half as many values at a time; and a trait for the two comparisons would be no plainer.
#[tactic(auto, using(crate::proofs::Ranges::within_low, crate::proofs::Ranges::within_no))]
pub fn within_f32(x: f32, limit: f32) -> bool
    ensures { result ≡ isWithin x limit }
{
    limit >= x && -limit <= x
}

// Two pairs, each function one call of std's: one pair for both formats would want a trait with two types' functions, and be no plainer.

// The `f64` of a pattern. The pattern of any NaN gives the NaN.
pub fn f64_of(n: u64) -> f64
    ensures { result ≡ of_bits binary64 n }
{
    std::num::f64_from_bits_with_nan(n)
}

// The `f32` of a pattern. The pattern of any NaN gives the NaN.
pub fn f32_of(n: u32) -> f32
    ensures { result ≡ of_bits binary32 n }
{
    std::num::f32_from_bits_with_nan(n)
}

// The pattern of an `f64`. A NaN gives that of the quiet one with no payload, 0x7ff8_0000_0000_0000.
pub fn bits_of(x: f64) -> u64
    ensures { result ≡ to_bits binary64 x }
{
    std::num::f64_to_bits_with_nan(x)
}

// The pattern of an `f32`. A NaN gives that of the quiet one with no payload, 0x7fc0_0000.
pub fn bits_of_f32(x: f32) -> u32
    ensures { result ≡ to_bits binary32 x }
{
    std::num::f32_to_bits_with_nan(x)
}
