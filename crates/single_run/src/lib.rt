// One reply alone, after `SingleMessageSimulation::run` of simulation.rs: its checks in their order, refusals 9, 1, 12, 7 and 8 among those of opening; a run's settings, one draw, the two lowpasses and noise in, the whole stretch of samples out.
#![tactic(auto)]

ghost use Rattle.std.specs.Prelude.{◌≡◌, not, ◌*◌, eqb, length};
ghost use Rattle.constants.specs.Setting.{per_pulse};
ghost use Rattle.settings_duration.specs.Duration.{samples_of};
ghost use Rattle.single_theory.specs.Single.{wrong_lengths, wrong_stretch, lengths_checked, values_checked, single_run, single_output};
ghost use Rattle.single_run.specs.Answer.{answer_of};
ghost use Rattle.single_run.specs.MakeModel.{made_by};

use constants::{DRAW_LEN, SamplesPerPulse};
use pulse_shape::Filters;
use refusals::Refusal;
use reply_add::ReplySignal;
use run_call::State;

// A pulse, in nanoseconds.
const PULSE_NANOSECONDS: u64 = 500;

// A duration has samples, whatever its seconds and nanoseconds: no product of the seconds is made, which might not fit.
fn has_samples(setting: SamplesPerPulse, seconds: u64, nanoseconds: u32) -> bool
    ensures { result ≡ not (eqb (samples_of (per_pulse setting) seconds nanoseconds) 0) }
{
    seconds > 0 || u64::from(nanoseconds) * setting.number() >= PULSE_NANOSECONDS
}

// Refusal 9.
#[tactic(auto, unfolding(single_theory::specs::Single::wrong_lengths))]
fn lengths_wrong(setting: SamplesPerPulse, settings: &[u8], draw: usize, output: usize) -> bool
    ensures { result ≡ wrong_lengths (per_pulse setting) settings.now draw output }
{
    if draw != DRAW_LEN || output % 2 != 0 {
        return true;
    }
    let s = settings::read(settings);
    output == 0 && has_samples(setting, s.seconds, s.nanoseconds)
}

// A length is two numbers for each of n samples. Halves are compared: twice n might not fit.
fn is_twice(len: usize, n: u64) -> bool
    ensures { result ≡ eqb len (2 * n) }
{
    len % 2 == 0 && (len / 2) as u64 == n
}

// Refusal 12.
#[tactic(auto, unfolding(single_theory::specs::Single::wrong_stretch))]
fn stretch_wrong(n: u64, output: usize, noise: usize) -> bool
    ensures { result ≡ wrong_stretch n output noise }
{
    !is_twice(output, n) || !is_twice(noise, n)
}

// Refusals 9, 1 and 12, of a draw, noise and an output of these lengths.
#[tactic(auto, unfolding(single_theory::specs::Single::lengths_checked, single_theory::specs::Single::stretch_then))]
fn check_lengths(
    setting: SamplesPerPulse,
    settings: &[u8],
    draw: usize,
    noise: usize,
    output: usize,
) -> Result<(), Refusal>
    ensures { result ≡ lengths_checked (per_pulse setting) settings.now draw noise output }
{
    if lengths_wrong(setting, settings, draw, output) {
        return Err(Refusal::Length);
    }
    let s = settings::read(settings);
    let n = settings_duration::duration_as_samples(setting, s.seconds, s.nanoseconds)?;
    if stretch_wrong(n, output, noise) {
        return Err(Refusal::StretchLength);
    }
    Ok(())
}

// Refusals 7 and 8, of a run's draw and noise.
#[tactic(auto, unfolding(single_theory::specs::Single::values_checked, single_theory::specs::Single::draw_then, refusals::specs::Answer::unless, run_call::specs::NoiseModel::noise_fault_read, run_call::specs::Given::refusal_given))]
fn check_values(state: State, draw: &[u8], noise: &[f32]) -> Result<(), Refusal>
    ensures { result ≡ values_checked state draw.now noise.now }
{
    if let Some((k, field)) = draw::first_fault(draw, state.rates, state.distributions) {
        return Err(Refusal::Draw(k, field));
    }
    if let Some(index) = run_call::check_noise(noise) {
        return Err(Refusal::Noise(index));
    }
    Ok(())
}

// Writes the samples of the reply of the draw at the start of the bytes, its gap being its time.
// The draw, the noise and the output are passed apart, as C lends them, for the reason given beside `run_call::step`.
fn make(state: State, prototypes: Filters, draw: &[u8], noise: &[f32], output: &mut [f32])
    ensures { output.new ≡ made_by state prototypes.entry.mode_s.now prototypes.entry.mode_ac.now draw.now noise.now output.old }
{
    let pending = draw::pending(state.distributions, 0.0, draw);
    let kind = draw::byte_at(draw, 8);
    let amplitude = le_read::number::<f32>(draw, 17);
    let r = ReplySignal {
        setting: state.setting,
        prototypes,
        delays: state.delays,
        config: draw::completed(pending, kind, draw::picks(draw)),
        amplitude,
    };
    single_add::stretch(r, noise, output);
}

// One reply alone (SPECIFICATION 14). The prototypes are the function's own.
#[tactic(auto, unfolding(single_theory::specs::Single::single_run, single_theory::specs::Single::single_at, single_theory::specs::Single::opened_then, single_theory::specs::Single::single_output, single_theory::specs::Single::left_in, settings::specs::Accepted::at_setting, run_open::specs::Opening::with_prototypes, run_open::specs::Opening::prepared_read, crate::specs::Answer::answer_of))]
pub fn single(
    settings: &[u8],
    taps: Filters,
    draw: &[u8],
    noise: &[f32],
    output: &mut [f32],
) -> Result<(), Refusal>
    ensures { (result ≡ answer_of (single_run settings.now taps.entry.mode_s.now taps.entry.mode_ac.now draw.now noise.now (length output.old))) × (output.new ≡ single_output settings.now taps.entry.mode_s.now taps.entry.mode_ac.now draw.now noise.now output.old) }
{
    let setting = settings::samples_per_pulse(settings)?;
    check_lengths(setting, settings, draw.len(), noise.len(), output.len())?;
    let p = run_open::prepare_at(setting, settings, taps)?;
    check_values(p.state, draw, noise)?;
    make(p.state, p.prototypes(), draw, noise, output);
    Ok(())
}
