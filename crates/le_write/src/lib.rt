// Little-endian numbers and floats written at an offset in a byte slice: equal to their definitions, in specs/ of `le_read`, on every input.
#![tactic(auto)]

ghost use Rattle.std.specs.Prelude.{◌≡◌, ℕ, ◌+◌, ◌≤◌, length};
ghost use Rattle.le_read.specs.LeBytes.{inside, overwritten, bytes_of, put};
ghost use Rattle.le_read.specs.Widths.{IsWidth, two_wide, four_wide, eight_wide};
ghost use Rattle.std.specs.Float.{binary32, binary64};
ghost use Rattle.std.specs.Float.Ieee.{to_bits};

// The low two, four and eight bytes of v, each written as two halves: LLVM turns that into one store, and a loop over the bytes into one for each byte. Slice, place and value stay three parameters, as in std's own writes.
#[tactic(auto, using(le_read::proofs::Halves::overwritten_two))]
fn put_two(d: &mut [u8], at: usize, v: u64)
    requires { at + 2 ≤ length d.old }
    ensures { d.new ≡ overwritten d.old at (bytes_of 2 v) }
{
    d[at] = (v % 256) as u8;
    d[at + 1] = (v / 256 % 256) as u8;
}

#[tactic(auto, using(le_read::proofs::Halves::overwritten_four))]
fn put_four(d: &mut [u8], at: usize, v: u64)
    requires { at + 4 ≤ length d.old }
    ensures { d.new ≡ overwritten d.old at (bytes_of 4 v) }
{
    put_two(d, at, v);
    put_two(d, at + 2, v / 0x1_0000);
}

#[tactic(auto, using(le_read::proofs::Halves::overwritten_eight))]
fn put_eight(d: &mut [u8], at: usize, v: u64)
    requires { at + 8 ≤ length d.old }
    ensures { d.new ≡ overwritten d.old at (bytes_of 8 v) }
{
    put_four(d, at, v);
    put_four(d, at + 4, v / 0x1_0000_0000);
}

// The low bytes of v, as many as one of the three widths says.
fn store(d: &mut [u8], at: usize, v: u64, width: usize)
    requires { (IsWidth width) × (at + width ≤ length d.old) }
    ensures { d.new ≡ overwritten d.old at (bytes_of width v) }
{
    match width {
        2 => put_two(d, at, v),
        4 => put_four(d, at, v),
        _ => put_eight(d, at, v),
    }
}

// A number or a float that is written as its little-endian bytes.
pub trait LeWrite: Copy {
    ghost WIDTH: { ℕ };

    // What its bytes stand for.
    ghost number: { Self → ℕ };

    // Its bytes: two, four or eight.
    const WIDTH: usize;

    // The number that its bytes are.
    fn pattern(self) -> u64
        ensures { result ≡ number self };

    ghost is_width: { IsWidth WIDTH };
}

impl LeWrite for u16 {
    ghost WIDTH = { 2 };

    ghost number = { λ n. n };

    ghost is_width = { two_wide };

    const WIDTH: usize = 2;

    fn pattern(self) -> u64 {
        u64::from(self)
    }
}

impl LeWrite for u32 {
    ghost WIDTH = { 4 };

    ghost number = { λ n. n };

    ghost is_width = { four_wide };

    const WIDTH: usize = 4;

    fn pattern(self) -> u64 {
        u64::from(self)
    }
}

impl LeWrite for u64 {
    ghost WIDTH = { 8 };

    ghost number = { λ n. n };

    ghost is_width = { eight_wide };

    const WIDTH: usize = 8;

    fn pattern(self) -> u64 {
        self
    }
}

impl LeWrite for f32 {
    ghost WIDTH = { 4 };

    ghost number = { to_bits binary32 };

    ghost is_width = { four_wide };

    const WIDTH: usize = u32::WIDTH;

    fn pattern(self) -> u64 {
        u64::from(std::num::f32_to_bits_with_nan(self))
    }
}

impl LeWrite for f64 {
    ghost WIDTH = { 8 };

    ghost number = { to_bits binary64 };

    ghost is_width = { eight_wide };

    const WIDTH: usize = u64::WIDTH;

    fn pattern(self) -> u64 {
        std::num::f64_to_bits_with_nan(self)
    }
}

// A number or a float written at an offset. False where its bytes would run past the end: then nothing is written.
#[tactic(auto, using(le_read::proofs::Decided::there), unfolding(le_read::specs::LeBytes::put))]
pub fn put<T: LeWrite>(d: &mut [u8], at: usize, v: T) -> bool
    ensures { (result ≡ inside T.WIDTH d.old at) × (d.new ≡ put T.WIDTH d.old at (T.number v)) }
{
    if le_read::holds(d.len(), at, T::WIDTH) {
        store(d, at, v.pattern(), T::WIDTH);
        return true;
    }
    false
}
