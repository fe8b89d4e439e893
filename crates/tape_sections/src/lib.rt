// The sections of a tape: a section's count and length, how many bytes stand before the noise, and rows of f32 values in bytes. Each public function is equal to a definition of specs/ on every input.
#![tactic(auto)]

ghost use Rattle.std.specs.Prelude.{◌≡◌, ◌++◌, ◌/◌, min, length, take, drop, ◌+◌, ◌*◌, ◌≤◌, ◌<◌, ◌&&◌, leb};
ghost use Rattle.le_read.specs.LeBytes.{overwritten};
ghost use Rattle.tape_sections.specs.Floats.{floats_of, float_bytes};
ghost use Rattle.constants.specs.Setting.{per_pulse};
ghost use Rattle.tape_sections.specs.Sections.{taps_count, draws_offset, section_at, tape_setting, tape_sps, head_length};

use constants::{DRAW_LEN, SamplesPerPulse};
use settings::SETTINGS_LEN;

// As many values as the bytes hold and there is room for; their number.
#[tactic(auto, unfolding(crate::specs::Floats::floats_of), using(crate::proofs::Rows::read_next))]
pub fn floats(bytes: &[u8], out: &mut [f32]) -> usize
    ensures { (result ≡ min (length bytes.now / 4) (length out.old)) × (out.new ≡ floats_of result bytes.now ++ drop result out.old) }
{
    let n = (bytes.len() / 4).min(out.len());
    for k in 0..n {
        out[k] = le_read::number::<f32>(bytes, 4 * k);
    }
    n
}

// The bytes of as many values as there is room for; the number of values.
#[tactic(auto, unfolding(crate::specs::Floats::float_bytes), using(crate::proofs::Rows::write_next, reply_record::proofs::Overwritten::none_overwritten))]
pub fn float_bytes(values: &[f32], out: &mut [u8]) -> usize
    ensures { (result ≡ min (length values.now) (length out.old / 4)) × (out.new ≡ overwritten out.old 0 (float_bytes (take result values.now))) }
{
    let n = values.len().min(out.len() / 4);
    for k in 0..n {
        le_write::put::<f32>(out, 4 * k, values[k]);
    }
    n
}

// The numbers that the system gives standard input and standard error.
pub const STDIN_FILENO: i32 = 0;

pub const STDERR_FILENO: i32 = 2;

// Offsets in a tape: the taps' count and the taps. Behind the taps the offsets depend on the samples per pulse.
pub const TAPS_COUNT_OFFSET: usize = 128;

pub const TAPS_OFFSET: usize = 132;

// Bytes before the noise with the most draws, at 8 samples per pulse.
pub const LONGEST_HEAD_LEN: usize = 50140;

// Taps of both lowpasses at 8 samples per pulse.
pub const MAX_TAPS_LEN: usize = 6000;

// The most draws of a tape.
pub const MAX_DRAWS: u64 = 400;

// Bytes of an entry of each section.
pub const SETTINGS_SIZE: u32 = SETTINGS_LEN as u32;

pub const TAP_SIZE: u32 = 4;

pub const DRAW_SIZE: u32 = 65;

// Bytes of the records of the most draws.
pub const MAX_RECORDS_LEN: usize = 26400;

// Noise values that are fed to a run at once, and their bytes; the output beside them has room for a sample more.
pub const CHUNK_VALUES: u64 = 16384;

pub const CHUNK_LEN: usize = 16384;

pub const CHUNK_BYTES: usize = 65536;

pub const CHUNK_OUTPUT_LEN: usize = 16386;

// Whether a count is from least to most, and n values of a size lie in the room behind it.
fn fits(n: u64, least: u64, most: u64, size: u64, room: u64) -> bool
    requires { (size < 0x1_0000_0000) × (n < 0x1_0000_0000) }
    ensures { result ≡ (leb least n && leb n most && leb (size * n) room) }
{
    least <= n && n <= most && size * n <= room
}

// The count at an offset, where it is from least to most and n values of a size lie behind it.
#[tactic(auto, unfolding(crate::specs::Sections::section_at, crate::specs::Sections::count_then, le_read::specs::LeBytes::read_at), using(le_read::proofs::Decided::no_sum))]
pub fn section(tape: &[u8], at: usize, least: u64, most: u64, size: u32) -> Option<u64>
    ensures { result ≡ section_at tape.now at least most size }
{
    let n = u64::from(le_read::le::<u32>(tape, at)?);
    let room = (tape.len() - (at + 4)) as u64;
    if fits(n, least, most, u64::from(size), room) {
        Some(n)
    } else {
        None
    }
}

// Taps of both lowpasses.
#[tactic(auto, using(constants::proofs::Settings::either_cases))]
pub fn taps_len(setting: SamplesPerPulse) -> usize
    ensures { (result ≡ taps_count (per_pulse setting)) × (result ≤ 6000) }
{
    setting.either(3001, 6000) as usize
}

// Where the draws' count stands, behind the taps.
#[tactic(auto, using(constants::proofs::Settings::either_cases))]
pub fn draws_count_offset(setting: SamplesPerPulse) -> usize
    ensures { (result ≡ draws_offset (per_pulse setting)) × (result ≤ 24132) }
{
    setting.either(12136, 24132) as usize
}

// The samples per pulse by which a tape is read, as the last byte of its settings says: a byte that is neither 4 nor 8 is refused by whoever checks it.
#[tactic(auto, unfolding(crate::specs::Sections::tape_setting))]
pub fn tape_setting(tape: &[u8]) -> SamplesPerPulse
    ensures { result ≡ tape_setting tape.now }
{
    SamplesPerPulse::from_number(u64::from(le_read::byte_at(tape, TAPS_COUNT_OFFSET - 1)))
}

// How many bytes of a tape stand before its noise, as those up to its draws' count say.
#[tactic(auto, unfolding(crate::specs::Sections::head_length, crate::specs::Sections::head_length_at, crate::specs::Sections::length_then), using(crate::proofs::Counts::at_most))]
pub fn head_length(tape: &[u8]) -> usize
    ensures value { result ≡ head_length tape.now }
    ensures lower_bound { (draws_offset (tape_sps tape.now) + 4 ≤ result) × (result ≤ 50140) }
{
    let at = draws_count_offset(tape_setting(tape));
    match section(tape, at, 0, MAX_DRAWS, 0) {
        Some(n) => at + 8 + DRAW_LEN * n as usize,
        None => at + 4,
    }
}
