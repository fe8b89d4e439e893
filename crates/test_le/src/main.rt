// Reads and writes of le_read and le_write, held to Rust's from_le_bytes and to_le_bytes.
// `harness vectors` (differential/) makes the bytes of `stdin` and, by Rust's own functions, the lines of `stdout`.
#![tactic(auto)]

ghost use Rattle.std.specs.Prelude.{◌≤◌, length};

use le_read::FloatFault;
use le_write::LeWrite;

// The numbers that the system gives standard input and standard output.
const STDIN_FILENO: i32 = 0;

const STDOUT_FILENO: i32 = 1;

const LAST: usize = usize::MAX;

fn text(b: &[u8]) {
    io::write_all(STDOUT_FILENO, b);
}

fn digits(n: u64, width: usize) {
    text(b" ");
    io::print_hex(STDOUT_FILENO, n, width);
}

// The number in the bytes that a float is written as.
fn pattern<T: LeWrite>(x: T) -> u64 {
    let mut b = [0u8; 8];
    le_write::put(&mut b, 0, x);
    le_read::number::<u64>(&b, 0)
}

fn show_number(r: Option<u64>, width: usize) {
    match r {
        Some(n) => digits(n, width),
        None => text(b" past"),
    }
}

fn show_float(r: Result<u64, FloatFault>, width: usize) {
    match r {
        Ok(n) => digits(n, width),
        Err(FloatFault::Nan) => text(b" nan"),
        Err(FloatFault::OutOfBounds) => text(b" past"),
    }
}

// A line of the ten reads at an offset.
fn reads(s: &[u8], at: usize) {
    text(b"read");
    digits(at as u64, 16);
    show_number(le_read::le::<u16>(s, at).map(u64::from), 4);
    show_number(le_read::le::<u32>(s, at).map(u64::from), 8);
    show_number(le_read::le::<u64>(s, at), 16);
    show_float(le_read::float::<f32>(s, at).map(pattern::<f32>), 8);
    show_float(le_read::float::<f64>(s, at).map(pattern::<f64>), 16);
    digits(u64::from(le_read::number::<u16>(s, at)), 4);
    digits(u64::from(le_read::number::<u32>(s, at)), 8);
    digits(le_read::number::<u64>(s, at), 16);
    digits(pattern(le_read::number::<f32>(s, at)), 8);
    digits(pattern(le_read::number::<f64>(s, at)), 16);
    text(b"\n");
}

// What a write answers, and the twelve bytes after it.
fn wrote<F: FnOnce(&mut [u8]) -> bool>(put: F)
    requires { F.IsAlwaysCallable put }
{
    let mut d = [0xa5u8; 12];
    text(if put(&mut d) { b" fits" } else { b" past" });
    digits(le_read::number::<u64>(&d, 0), 16);
    digits(u64::from(le_read::number::<u32>(&d, 8)), 8);
}

// A line of the five writes at an offset, of the values read at another.
fn writes(s: &[u8], from: usize, at: usize) {
    text(b"write");
    digits(from as u64, 16);
    digits(at as u64, 16);
    wrote(|d| le_write::put::<u16>(d, at, le_read::number::<u16>(s, from)));
    wrote(|d| le_write::put::<u32>(d, at, le_read::number::<u32>(s, from)));
    wrote(|d| le_write::put::<u64>(d, at, le_read::number::<u64>(s, from)));
    wrote(|d| le_write::put::<f32>(d, at, le_read::number::<f32>(s, from)));
    wrote(|d| le_write::put::<f64>(d, at, le_read::number::<f64>(s, from)));
    text(b"\n");
}

// Every offset up to one past the end, each with the writes at the first twelve offsets and one past.
fn forward(s: &[u8])
    requires { length s.now ≤ 256 }
{
    for at in 0..=s.len() {
        reads(s, at);
        writes(s, at, at % 13);
    }
}

// The last offsets that a usize can name.
fn backward(s: &[u8]) {
    for k in 0..9 {
        reads(s, LAST - k);
        writes(s, 8 * k, LAST - k);
    }
}

fn main() {
    let mut b = [0u8; 256];
    let n = io::read_full(STDIN_FILENO, &mut b);
    forward(&b[..n]);
    backward(&b[..n]);
}
