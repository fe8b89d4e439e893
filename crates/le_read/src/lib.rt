// Little-endian numbers and floats at an offset in a byte slice: whether they lie within it, and their values, or 0 past its end. Each function is equal to a definition of specs/ on every input.
#![tactic(auto)]

ghost use Rattle.std.specs.Prelude.{◌≡◌, ℕ, ◌+◌, ◌≤◌, ◌<◌, ◌^◌, ◌%◌, leb, length, Some, None, IfSome, get_or, Err};
ghost use Rattle.std.specs.Float.{binary32, binary64, Format};
ghost use Rattle.std.specs.Float.Ieee.{of_bits, nan_bits};
ghost use Rattle.le_read.specs.LeBytes.{le_at, read_at, number_at};
ghost use Rattle.le_read.specs.Widths.{IsWidth, two_wide, four_wide, eight_wide};
ghost use Rattle.le_read.specs.FloatReads.{found};
ghost use Rattle.le_read.specs.declared.FloatFault.TheVariants.{OutOfBounds};

// Whether n bytes from an offset lie within a length; no sum, so that no offset can overflow.
#[tactic(auto, using(crate::proofs::Decided::no_sum, crate::proofs::Decided::too_long))]
pub fn holds(len: usize, at: usize, n: usize) -> bool
    ensures { result ≡ leb (at + n) len }
{
    n <= len && at <= len - n
}

// The number in two, four and eight bytes, each made of two halves: LLVM turns that into one load, and a loop over the bytes, which was tried, into one for each byte.
#[tactic(auto, using(crate::proofs::Halves::joined_two))]
fn two(s: &[u8], at: usize) -> u64
    requires { at + 2 ≤ length s.now }
    ensures { (result ≡ le_at 2 s.now at) × (result < 0x1_0000) }
{
    let low = u64::from(s[at]);
    let high = u64::from(s[at + 1]);
    low + 256 * high
}

#[tactic(auto, using(crate::proofs::Halves::joined_four))]
fn four(s: &[u8], at: usize) -> u64
    requires { at + 4 ≤ length s.now }
    ensures { (result ≡ le_at 4 s.now at) × (result < 0x1_0000_0000) }
{
    two(s, at) + 0x1_0000 * two(s, at + 2)
}

#[tactic(auto, using(crate::proofs::Halves::joined_eight))]
fn eight(s: &[u8], at: usize) -> u64
    requires { at + 8 ≤ length s.now }
    ensures { result ≡ le_at 8 s.now at }
{
    four(s, at) + 0x1_0000_0000 * four(s, at + 4)
}

// The number in the bytes from an offset, as many as one of the three widths says.
fn load(s: &[u8], at: usize, width: usize) -> u64
    requires { (IsWidth width) × (at + width ≤ length s.now) }
    ensures { (result ≡ le_at width s.now at) × (result < 256 ^ width) }
{
    match width {
        2 => two(s, at),
        4 => four(s, at),
        _ => eight(s, at),
    }
}

// A number or a float that is read from its little-endian bytes.
pub trait LeRead: Copy {
    ghost WIDTH: { ℕ };

    // What a number of so many bytes stands for.
    ghost value: { ℕ → Self };

    // Its bytes: two, four or eight.
    const WIDTH: usize;

    // What the low bytes of a number stand for.
    fn of(n: u64) -> Self
        ensures { result ≡ value (n % 256 ^ WIDTH) };

    ghost is_width: { IsWidth WIDTH };
}

impl LeRead for u16 {
    ghost WIDTH = { 2 };

    ghost value = { λ n. n };

    ghost is_width = { two_wide };

    const WIDTH: usize = 2;

    fn of(n: u64) -> u16 {
        (n % 0x1_0000) as u16
    }
}

impl LeRead for u32 {
    ghost WIDTH = { 4 };

    ghost value = { λ n. n };

    ghost is_width = { four_wide };

    const WIDTH: usize = 4;

    fn of(n: u64) -> u32 {
        (n % 0x1_0000_0000) as u32
    }
}

impl LeRead for u64 {
    ghost WIDTH = { 8 };

    ghost value = { λ n. n };

    ghost is_width = { eight_wide };

    const WIDTH: usize = 8;

    fn of(n: u64) -> u64 {
        n
    }
}

impl LeRead for f32 {
    ghost WIDTH = { 4 };

    ghost value = { of_bits binary32 };

    ghost is_width = { four_wide };

    const WIDTH: usize = u32::WIDTH;

    fn of(n: u64) -> f32 {
        std::num::f32_from_bits_with_nan((n % 0x1_0000_0000) as u32)
    }
}

impl LeRead for f64 {
    ghost WIDTH = { 8 };

    ghost value = { of_bits binary64 };

    ghost is_width = { eight_wide };

    const WIDTH: usize = u64::WIDTH;

    fn of(n: u64) -> f64 {
        std::num::f64_from_bits_with_nan(n)
    }
}

// The number in the bytes of a T at an offset, whatever T makes of it, or that they run past the end.
#[tactic(auto, using(crate::proofs::Decided::there), unfolding(crate::specs::LeBytes::read_at))]
pub fn pattern<T: LeRead>(s: &[u8], at: usize) -> Option<u64>
    ensures { (result ≡ read_at T.WIDTH Some None s.now at) × (IfSome result (λ n. n < 256 ^ T.WIDTH)) }
{
    if holds(s.len(), at, T::WIDTH) {
        Some(load(s, at, T::WIDTH))
    } else {
        None
    }
}

// What the bytes of a T at an offset stand for, or that they run past the end.
#[tactic(auto, unfolding(crate::specs::LeBytes::read_at))]
pub fn le<T: LeRead>(s: &[u8], at: usize) -> Option<T>
    ensures { result ≡ read_at T.WIDTH (λ n. Some (T.value n)) None s.now at }
{
    Some(T::of(pattern::<T>(s, at)?))
}

// The byte at an offset, 0 past the end.
pub fn byte_at(s: &[u8], at: usize) -> u8
    ensures { result ≡ get_or s.now at 0 }
{
    s.get(at).copied().unwrap_or(0)
}

// The number at an offset, 0 where its bytes run past the end.
#[tactic(auto, unfolding(crate::specs::LeBytes::read_at))]
pub fn number<T: LeRead>(s: &[u8], at: usize) -> T
    ensures { result ≡ T.value (number_at T.WIDTH s.now at) }
{
    le(s, at).unwrap_or(T::of(0))
}

// Why the read of a float finds no value: its bytes are a NaN's, or they run past the end. An error enum with these two causes; std has none.
#[derive(Clone, Copy, PartialEq, Eq)]
pub enum FloatFault {
    Nan,
    OutOfBounds,
}

// A float that is read by its IEEE 754 pattern.
pub trait LeFloat: LeRead {
    ghost format: { Format };

    // Whether a pattern is a NaN's: without the bit of the sign it is above the infinity's.
    fn is_nan(pattern: u64) -> bool
        ensures { result ≡ nan_bits format pattern };
}

impl LeFloat for f32 {
    ghost format = { binary32 };

    #[tactic(auto, using(crate::proofs::Patterns::nan32))]
    fn is_nan(pattern: u64) -> bool {
        0x7f80_0000 < pattern % 0x8000_0000
    }
}

impl LeFloat for f64 {
    ghost format = { binary64 };

    #[tactic(auto, using(crate::proofs::Patterns::nan64))]
    fn is_nan(pattern: u64) -> bool {
        0x7ff0_0000_0000_0000 < pattern % 0x8000_0000_0000_0000
    }
}

// The float at an offset, or that it is a NaN or past the end.
#[tactic(auto, unfolding(crate::specs::LeBytes::read_at, crate::specs::FloatReads::found))]
pub fn float<T: LeFloat>(s: &[u8], at: usize) -> Result<T, FloatFault>
    ensures { result ≡ read_at T.WIDTH (found T.format T.value) (Err OutOfBounds) s.now at }
{
    let pattern = pattern::<T>(s, at).ok_or(FloatFault::OutOfBounds)?;
    if T::is_nan(pattern) {
        return Err(FloatFault::Nan);
    }
    Ok(T::of(pattern))
}
