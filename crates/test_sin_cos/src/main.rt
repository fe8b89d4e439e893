// Replays stored answers of the Rust: the wraps and the sine and cosine of SPECIFICATION 6.11 bit for bit, and the two values within 2^-23 of its `sin_cos`.
// Prints how many rows of each table agree.
#![tactic(auto)]

mod tables;

ghost use Rattle.std.specs.Prelude.{◌<◌};

use std::num::f64_from_bits_with_nan;

// Whether x has the bit pattern n, which the tables write as 0x7ff8_0000_0000_0000 for a NaN.
fn same(x: f64, n: u64) -> bool {
    std::num::f64_to_bits_with_nan(x) == n
}

fn near(x: f64, y: f64) -> bool {
    (x - y).abs() <= 1.1920928955078125e-7
}

// Whether a row of the wraps agrees.
fn wrap_agrees(row: &[u64]) -> bool {
    let [x, wrapped, once] = row else {
        return false;
    };
    let x = f64_from_bits_with_nan(*x);
    same(math::phase_wrap_f64(x), *wrapped) && same(math::phase_wrap_once_f64(x), *once)
}

// Whether a row of the phases from -PI to PI agrees.
fn phase_agrees(row: &[u64]) -> bool {
    let [p, sin, cos, near_sin, near_cos] = row else {
        return false;
    };
    let y = math::sin_cos(f64_from_bits_with_nan(*p));
    same(y.sin, *sin)
        && same(y.cos, *cos)
        && near(y.sin, f64_from_bits_with_nan(*near_sin))
        && near(y.cos, f64_from_bits_with_nan(*near_cos))
}

// Whether a row of the other phases agrees.
fn other_agrees(row: &[u64]) -> bool {
    let [p, sin, cos] = row else {
        return false;
    };
    let y = math::sin_cos(f64_from_bits_with_nan(*p));
    same(y.sin, *sin) && same(y.cos, *cos)
}

// How many of a table's rows, of n values each, agree.
fn count<F: Fn(&[u64]) -> bool>(table: &[u64], n: usize, agrees: F) -> usize
    requires some { 0 < n }
    requires callable { F.IsAlwaysCallable agrees }
{
    table.chunks_exact(n).filter(|row| agrees(row)).count()
}

// The last decimal digit of n.
fn digit(n: usize) -> u8 {
    (48 + n % 10) as u8
}

// Three digits of n and the end of the line.
fn print_count(n: usize) {
    io::write_all(1, &[digit(n / 100), digit(n / 10), digit(n), b'\n']);
}

fn main() {
    io::write_all(1, b"wraps ");
    print_count(count(&tables::WRAPS, 3, wrap_agrees));
    io::write_all(1, b"phases ");
    print_count(count(&tables::PHASES, 5, phase_agrees));
    io::write_all(1, b"others ");
    print_count(count(&tables::OTHERS, 3, other_agrees));
}
