// Prints digests of prototypes, delays, taps and pulse sums of made-up filters. The file `stdout` holds those of the Rust: `harness vectors` (differential/) makes it.
#![tactic(auto)]

ghost use Rattle.std.specs.Prelude.{◌≤◌};

use constants::{Mode, SamplesPerPulse};
use filterbank::{Clock, PADDED_LEN};

// The number that the system gives standard output.
const STDOUT_FILENO: i32 = 1;

const RANGE: u64 = 0x8000_0000;

const DIGESTS: u64 = 0x100_0000_0000_0000;

// No reply has more values.
const MOST_VALUES: u64 = 1200;

// The next number of a sequence below 2^31.
fn next(x: u32) -> u32 {
    ((u64::from(x) * 1103515245 + 12345) % RANGE) as u32
}

// A tap near 0.004.
fn tap(x: u32) -> f32 {
    (std::num::nearest_u32_to_f32(x / 128) / 8388608.0 - 1.0) * 0.002 + 0.004
}

fn lowpass(seed: u32) -> [f32; 1515] {
    let mut out = [0.0f32; 1515];
    let mut x = seed;
    for value in out.iter_mut() {
        x = next(x);
        *value = tap(x);
    }
    out
}

fn pulses(seed: u32) -> [bool; 240] {
    let mut out = [false; 240];
    let mut x = seed;
    for on in out.iter_mut() {
        x = next(x);
        *on = x / 65536 % 2 == 1;
    }
    out
}

// A digest, a number below 2^56, with 32 bits more.
fn fold(digest: u64, bits: u32) -> u64 {
    (digest % DIGESTS * 31 + u64::from(bits)) % DIGESTS
}

fn fold_f32(digest: u64, x: f32) -> u64 {
    fold(digest, floats::bits_of_f32(x))
}

fn values_digest(values: &[f32], start: u64) -> u64 {
    let mut digest = start;
    for x in values {
        digest = fold_f32(digest, *x);
    }
    digest
}

// The taps at 4,096 phases that no branch divides evenly.
fn taps_digest(prototype: &[f32]) -> u64 {
    let mut digest: u64 = 0;
    for k in 0..4096u32 {
        let taps = filterbank::filter_taps(SamplesPerPulse::Four, prototype, k as f64 / 4096.7);
        digest = values_digest(&taps, digest);
    }
    digest
}

// The values of a reply from a clock on, at most 1,200: their digest, and how many they are.
fn reply_digest(
    prototype: &[f32],
    padded: &[bool; PADDED_LEN],
    limit: usize,
    first: Clock,
    step: f64,
) -> (u64, u64) {
    let mut clock = first;
    let mut digest: u64 = 0;
    for n in 0..MOST_VALUES {
        if clock.index >= limit {
            return (digest, n);
        }
        let taps = filterbank::filter_taps(SamplesPerPulse::Four, prototype, clock.phase);
        digest = fold_f32(digest, filterbank::pulse_sum(taps, padded, clock.index));
        clock = filterbank::advance(clock, step);
    }
    (digest, MOST_VALUES)
}

fn reply(prototype: &[f32], padded: &[bool; PADDED_LEN], limit: usize, first: f64, e: f64) {
    let step = filterbank::clock_step(SamplesPerPulse::Four, e);
    let clock = filterbank::start_clock(SamplesPerPulse::Four, first);
    let (digest, n) = reply_digest(prototype, padded, limit, clock, step);
    io::write_all(STDOUT_FILENO, b"reply ");
    io::print_decimal(STDOUT_FILENO, n);
    line(digest);
}

fn line(n: u64) {
    io::write_all(STDOUT_FILENO, b" ");
    io::print_hex(STDOUT_FILENO, n, 16);
    io::write_all(STDOUT_FILENO, b"\n");
}

fn delay(level: f32, prototype: &[f32]) {
    io::write_all(STDOUT_FILENO, b"delay");
    match pulse_shape::group_delay(Mode::S, level, prototype) {
        Some(x) => line(floats::bits_of(x)),
        None => line(0),
    }
}

fn replies(prototype: &[f32], seed: u32, len: usize)
    requires { len ≤ 240 }
{
    let padded = filterbank::pad_pulses(&pulses(seed)[..len]);
    reply(prototype, &padded, len + 6, 0.0, 0.0);
    reply(prototype, &padded, len + 6, 1.1, -0.1);
    reply(prototype, &padded, len + 6, 0.37, 0.1);
    reply(prototype, &padded, len + 6, 0.999, 0.034);
}

fn both(prototype: &[f32]) {
    io::write_all(STDOUT_FILENO, b"prototype");
    line(values_digest(prototype, 0));
    io::write_all(STDOUT_FILENO, b"taps");
    line(taps_digest(prototype));
    delay(0.5, prototype);
    delay(0.25, prototype);
    delay(0.9, prototype);
    delay(15.0, prototype);
    delay(0.1, prototype);
    replies(prototype, 5, 240);
    replies(prototype, 6, 128);
    replies(prototype, 7, 43);
    replies(prototype, 8, 52);
}

fn main() {
    let taps = lowpass(3);
    let mut mode_s = [0.0; 1792];
    pulse_shape::prototype(SamplesPerPulse::Four, Mode::S, &taps[..1486], &mut mode_s);
    both(&mode_s);
    let mut mode_ac = [0.0; 1792];
    pulse_shape::prototype(SamplesPerPulse::Four, Mode::Ac, &taps, &mut mode_ac);
    both(&mode_ac);
}
