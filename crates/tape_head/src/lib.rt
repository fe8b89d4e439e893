// A tape up to its noise: its sections in tape order, each section's count and length before its values. Each public function is equal to a definition of specs/ on every input.
#![tactic(auto)]

ghost use Rattle.std.specs.Prelude.{◌≡◌, ◌+◌, ◌*◌, ◌≤◌, Some, length, take};
ghost use Rattle.constants.specs.Setting.{per_pulse};
ghost use Rattle.run_open.specs.Opening.{opened_for, with_prototypes, prepared_read};
ghost use Rattle.settings.specs.Settings.{settings_length};
ghost use Rattle.tape_sections.specs.Sections.{most_draws, taps_count, draws_offset, section_at};
ghost use Rattle.tape_head.specs.Head.{setting_then, noise_then, draws_then, taps, taps_s, taps_ac, settings_bytes, early_of, head_of};

use constants::{DRAW_LEN, Mode, SamplesPerPulse};
use pulse_shape::Filters;
use refusals::Refusal;
use run_call::State;
use run_open::{Lengths, Prepared};
pub use tape_sections::head_length;
use tape_sections::{
    DRAW_SIZE, MAX_DRAWS, MAX_TAPS_LEN, SETTINGS_SIZE, TAP_SIZE, TAPS_COUNT_OFFSET, TAPS_OFFSET,
};

// What a tape begins with: a run's first state, its count of draws and its count of noise values.
#[derive(Clone, Copy)]
pub struct Beginning {
    pub state: State,
    pub draws: u64,
    pub noise: u64,
}

// The noise's count, behind n draws.
#[tactic(auto, unfolding(crate::specs::Head::noise_then, le_read::specs::LeBytes::read_at))]
fn noise_count(state: State, n: u64, tape: &[u8]) -> Result<Beginning, Refusal>
    requires { n ≤ 400 }
    ensures { result ≡ noise_then (per_pulse state.setting) tape.now state n }
{
    let at = tape_sections::draws_count_offset(state.setting) + 4 + DRAW_LEN * n as usize;
    let noise = le_read::le::<u32>(tape, at).ok_or(Refusal::Tape)?;
    Ok(Beginning {
        state,
        draws: n,
        noise: u64::from(noise),
    })
}

// Refusal 7 of n draws, then the noise's count.
#[tactic(auto, using(crate::proofs::Sections::draws_good))]
fn check_draws(state: State, n: u64, tape: &[u8]) -> Result<Beginning, Refusal>
    requires { (n ≤ 400) × (draws_offset (per_pulse state.setting) + 4 + 65 * n ≤ length tape.now) }
    ensures { result ≡ draws_then (per_pulse state.setting) tape.now state (Some n) }
{
    let at = tape_sections::draws_count_offset(state.setting) + 4;
    let draws = &tape[at..at + DRAW_LEN * n as usize];
    match draw::first_fault(draws, state.rates, state.distributions) {
        None => noise_count(state, n, tape),
        Some((k, field)) => Err(Refusal::Draw(k, field)),
    }
}

// The draws' count and length, then the draws.
#[tactic(auto, unfolding(crate::specs::Head::draws_then))]
fn draws_of(state: State, tape: &[u8]) -> Result<Beginning, Refusal>
    ensures { result ≡ draws_then (per_pulse state.setting) tape.now state (section_at tape.now (draws_offset (per_pulse state.setting)) 0 most_draws 65) }
{
    let at = tape_sections::draws_count_offset(state.setting);
    let counted = tape_sections::section(tape, at, 0, MAX_DRAWS, DRAW_SIZE);
    check_draws(state, counted.ok_or(Refusal::Tape)?, tape)
}

// The taps of a tape, at the start of an array that holds those of either setting.
#[tactic(auto, using(crate::proofs::Sections::taps_read))]
fn read_taps(setting: SamplesPerPulse, tape: &[u8]) -> [f32; MAX_TAPS_LEN]
    requires { draws_offset (per_pulse setting) ≤ length tape.now }
    ensures { take (taps_count (per_pulse setting)) result ≡ taps (per_pulse setting) tape.now }
{
    let n = tape_sections::taps_len(setting);
    let mut values = [0.0f32; MAX_TAPS_LEN];
    tape_sections::floats(&tape[TAPS_OFFSET..], &mut values[..n]);
    values
}

// What opening answers, given the taps of a tape and buffers of these lengths, and its prototypes.
#[tactic(auto, unfolding(constants::specs::Setting::by_mode), using(crate::proofs::Sections::settings_part, crate::proofs::Sections::taps_before, crate::proofs::Sections::taps_behind))]
fn prepared(setting: SamplesPerPulse, tape: &[u8], lengths: Lengths) -> Result<Prepared, Refusal>
    requires { draws_offset (per_pulse setting) ≤ length tape.now }
    ensures { prepared_read result ≡ with_prototypes (taps_s (per_pulse setting) tape.now) (taps_ac (per_pulse setting) tape.now) (opened_for (taps_s (per_pulse setting) tape.now) (taps_ac (per_pulse setting) tape.now) (settings_bytes tape.now) lengths.mode_s lengths.mode_ac lengths.memory) }
{
    let values = read_taps(setting, tape);
    let all: &[f32] = &values[..tape_sections::taps_len(setting)];
    let of_mode_s = setting.taps_len(Mode::S);
    let taps = Filters {
        mode_s: &all[..of_mode_s],
        mode_ac: &all[of_mode_s..],
    };
    run_open::prepare(&tape[4..TAPS_COUNT_OFFSET], taps, lengths)
}

// Refusals 1 to 4 and 14 of the settings, then the taps' count and length.
#[tactic(auto, unfolding(crate::specs::Head::early_of, crate::specs::Head::checked_then, crate::specs::Head::taps_then, crate::specs::Head::settings_bytes))]
fn before_taps(setting: SamplesPerPulse, tape: &[u8]) -> Result<(), Refusal>
    requires { 4 + settings_length ≤ length tape.now }
    ensures { result ≡ early_of (per_pulse setting) tape.now }
{
    settings::check(setting, settings::read(&tape[4..TAPS_COUNT_OFFSET]))?;
    let n = tape_sections::taps_len(setting) as u64;
    let taps = tape_sections::section(tape, TAPS_COUNT_OFFSET, n, n, TAP_SIZE);
    taps.ok_or(Refusal::Tape)?;
    Ok(())
}

// The settings' count and length, then refusal 15 or the samples per pulse.
#[tactic(auto, unfolding(crate::specs::Head::setting_then, crate::specs::Head::settings_bytes))]
fn setting_of(tape: &[u8]) -> Result<SamplesPerPulse, Refusal>
    ensures { result ≡ setting_then tape.now (section_at tape.now 0 1 1 settings_length) }
{
    tape_sections::section(tape, 0, 1, 1, SETTINGS_SIZE).ok_or(Refusal::Tape)?;
    let bytes = &tape[4..TAPS_COUNT_OFFSET];
    settings::samples_per_pulse(bytes)
}

// A tape up to its noise. The prototypes and working memory are those that opening is given: a run fills them, a refusal leaves them. Three slices, for the reason given beside `run_open::fill`.
#[tactic(auto, using(crate::proofs::Sections::settings_long, crate::proofs::Sections::passed_long, crate::proofs::Sections::setting_refused, crate::proofs::Sections::early_refused, crate::proofs::Sections::draws_refused))]
pub fn head(
    tape: &[u8],
    mode_s: &mut [f32],
    mode_ac: &mut [f32],
    memory: &mut [f32],
) -> Result<Beginning, Refusal>
    ensures { record { head = result; left = record { mode_s = mode_s.new; mode_ac = mode_ac.new; memory = memory.new } } ≡ head_of tape.now (record { mode_s = mode_s.old; mode_ac = mode_ac.old; memory = memory.old }) }
{
    let setting = setting_of(tape)?;
    before_taps(setting, tape)?;
    let lengths = Lengths {
        mode_s: mode_s.len(),
        mode_ac: mode_ac.len(),
        memory: memory.len(),
    };
    let p = prepared(setting, tape, lengths)?;
    let begun = draws_of(p.state, tape)?;
    run_open::fill(p.prototypes(), mode_s, mode_ac, memory);
    Ok(begun)
}
