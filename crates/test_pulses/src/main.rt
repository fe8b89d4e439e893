// Runs the bench checks of durations, lengths, Mode A/C data and pulses, every Mode A/C map beside a second one written out position by position, and
// Mode S maps. Its stdout is what the Rust's own functions give (`harness vectors`, differential/).
#![tactic(auto)]

ghost use Rattle.std.specs.Prelude.{◌<◌};

use constants::SamplesPerPulse;
use mode_ac::ModeACReply;
use pulse_map::Pulses;
use refusals::Refusal;

// The number that the system gives standard output.
const STDOUT_FILENO: i32 = 1;

const PRIME: u64 = 4_294_967_291;

fn say(n: u64) {
    io::print_decimal(STDOUT_FILENO, n);
    io::write_all(STDOUT_FILENO, b"\n");
}

fn say_refused(q: Refusal) {
    io::write_all(STDOUT_FILENO, b"refused ");
    say(q.number());
}

fn say_samples(r: Result<u64, Refusal>) {
    match r {
        Ok(n) => say(n),
        Err(q) => say_refused(q),
    }
}

fn say_reply(r: Result<ModeACReply, Refusal>) {
    match r {
        Ok(reply) => {
            io::print_decimal(STDOUT_FILENO, u64::from(reply.data));
            io::write_all(STDOUT_FILENO, b" ");
            say(u64::from(reply.spi));
        }
        Err(q) => say_refused(q),
    }
}

// The positions where pulses stand.
fn say_positions(p: Pulses) {
    for (k, on) in p.on.iter().enumerate() {
        if *on {
            io::print_decimal(STDOUT_FILENO, k as u64);
            io::write_all(STDOUT_FILENO, b" ");
        }
    }
    io::write_all(STDOUT_FILENO, b"\n");
}

// The positions of a map that its reply takes, 1 for a pulse and 0 for none.
fn say_map(p: Pulses) {
    for on in p.on.iter().take(p.len) {
        io::print_decimal(STDOUT_FILENO, u64::from(*on));
    }
    io::write_all(STDOUT_FILENO, b"\n");
}

// A number that depends on every position of a map, and on those before it by h.
fn digest(h: u64, p: Pulses) -> u64
    requires { h < 4294967291 }
    ensures { result < 4294967291 }
{
    let mut g = (h * 256 + p.len as u64 % 256) % PRIME;
    for on in &p.on {
        g = (g * 2 + u64::from(*on)) % PRIME;
    }
    g
}

fn has(digit: u16, worth: u16) -> bool
    requires { 0 < worth }
{
    digit / worth % 2 == 1
}

// The Mode A/C map, each position written out as the Rust has it.
fn second_map(data: u16, spi: bool) -> [bool; 240] {
    let a = data / 512 % 8;
    let b = data / 64 % 8;
    let c = data / 8 % 8;
    let d = data % 8;
    let mut p = [false; 240];
    p[0] = true;
    p[3] = has(c, 1);
    p[6] = has(a, 1);
    p[9] = has(c, 2);
    p[12] = has(a, 2);
    p[15] = has(c, 4);
    p[18] = has(a, 4);
    p[24] = has(b, 1);
    p[27] = has(d, 1);
    p[30] = has(b, 2);
    p[33] = has(d, 2);
    p[36] = has(b, 4);
    p[39] = has(d, 4);
    p[42] = true;
    p[51] = spi;
    p
}

// How many of the 4,096 maps equal the second one.
fn equal_maps(spi: bool) -> usize {
    (0..4096)
        .filter(|data| pulse_map::mode_ac_pulses(*data, spi).on == second_map(*data, spi))
        .count()
}

fn digest_mode_ac(spi: bool) -> u64 {
    let mut h: u64 = 0;
    for data in 0..4096 {
        h = digest(h, pulse_map::mode_ac_pulses(data, spi));
    }
    h
}

// A message of 14 bytes that look arbitrary.
fn message(seed: u64) -> [u8; 14]
    requires { seed < 2147483648 }
{
    let mut bytes = [0u8; 14];
    let mut s = seed;
    for b in bytes.iter_mut() {
        s = (s * 1_103_515_245 + 12_345) % 2_147_483_648;
        *b = (s / 65_536 % 256) as u8;
    }
    bytes
}

fn digest_mode_s(long: bool) -> u64 {
    let mut h: u64 = 0;
    for seed in 0..1000 {
        h = digest(h, pulse_map::mode_s_pulses(message(seed), long));
    }
    h
}

fn durations() {
    let list = [
        (0, 124),
        (0, 125),
        (562_949_953, 421_312_124),
        (562_949_953, 421_312_125),
        (12_345, 999_999_999),
        (0, 1_000_000_000),
    ];
    for (seconds, nanoseconds) in list {
        say_samples(settings_duration::duration_as_samples(
            SamplesPerPulse::Four,
            seconds,
            nanoseconds,
        ));
    }
}

fn lengths() {
    say(pulse_map::reply_limit(SamplesPerPulse::Four));
    say(pulse_map::mode_s_num_samples(SamplesPerPulse::Four, true) as u64);
    say(pulse_map::mode_s_num_samples(SamplesPerPulse::Four, false) as u64);
    say(pulse_map::mode_ac_num_samples(SamplesPerPulse::Four, false) as u64);
    say(pulse_map::mode_ac_num_samples(SamplesPerPulse::Four, true) as u64);
}

fn replies() {
    say_reply(ModeACReply::from_abcd(7, 0, 0, 0, false));
    say_reply(ModeACReply::from_abcd(7, 0, 0, 8, false));
    say_reply(ModeACReply::from_abcd(1, 2, 3, 4, true));
    say_reply(ModeACReply::new(4095, false));
    say_reply(ModeACReply::new(4096, false));
}

fn mode_ac_maps(spi: bool) {
    io::print_decimal(STDOUT_FILENO, equal_maps(spi) as u64);
    io::write_all(STDOUT_FILENO, b" ");
    say(digest_mode_ac(spi));
}

fn mode_s_maps(long: bool) {
    say_map(pulse_map::mode_s_pulses([0u8; 14], long));
    say_map(pulse_map::mode_s_pulses(message(1), long));
    say_map(pulse_map::mode_s_pulses(message(2), long));
    say(digest_mode_s(long));
}

fn main() {
    durations();
    lengths();
    replies();
    say_positions(pulse_map::mode_ac_pulses(3584, false));
    say_positions(pulse_map::mode_ac_pulses(4095, true));
    mode_ac_maps(false);
    mode_ac_maps(true);
    mode_s_maps(false);
    mode_s_maps(true);
}
