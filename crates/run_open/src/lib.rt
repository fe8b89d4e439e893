// Opening a run: refusals 15, 9, 1 to 4, 14, 5 and 6, or the first state, with the prototypes filled and working memory set to 0.0.
#![tactic(auto)]

ghost use Rattle.std.specs.Prelude.{◌≡◌, take, length};
ghost use Rattle.constants.specs.Rate.{prototype_length};
ghost use Rattle.constants.specs.Setting.{per_pulse, by_mode};
ghost use Rattle.pulse_shape.specs.Prototype.{mode_s_prototype, mode_ac_prototype};
ghost use Rattle.run_open.specs.Opening.{buffers_fit, mode_s_delay, mode_ac_delay, delays_then, taps_of, opened_at, opened_for, with_prototypes, prepared_read, opened_of, left_by};
ghost use Rattle.run_theory.specs.Zeros.{zeros};
ghost use Rattle.run_open.specs.FillModel.{over};

use constants::{MAX_PROTOTYPE_LEN, Mode, SamplesPerPulse};
use message_config::Delays;
use pulse_shape::Filters;
use refusals::Refusal;
use run_call::State;
use settings::{Distributions, MessagesPerSecond, Settings};

// The first state of a run, and the prototypes that it is opened with, each at the start of its array.
#[derive(Clone, Copy)]
pub struct Prepared {
    pub state: State,
    pub mode_s: [f32; MAX_PROTOTYPE_LEN],
    pub mode_ac: [f32; MAX_PROTOTYPE_LEN],
}

impl Prepared {
    // The prototypes as a run takes them.
    pub fn prototypes(&self) -> Filters<'_>
        ensures { (result.mode_s.now ≡ take (prototype_length (per_pulse self.now.state.setting)) self.now.mode_s) × (result.mode_ac.now ≡ take (prototype_length (per_pulse self.now.state.setting)) self.now.mode_ac) }
    {
        let n = self.state.setting.prototype_len();
        Filters {
            mode_s: &self.mode_s[..n],
            mode_ac: &self.mode_ac[..n],
        }
    }
}

// The lengths of the buffers that a run is given: its prototypes and working memory.
#[derive(Clone, Copy)]
pub struct Lengths {
    pub mode_s: usize,
    pub mode_ac: usize,
    pub memory: usize,
}

// Whether the prototypes and working memory have their lengths.
#[tactic(auto, unfolding(crate::specs::Opening::buffers_fit))]
fn buffers_fit(setting: SamplesPerPulse, lengths: Lengths) -> bool
    ensures { result ≡ buffers_fit (per_pulse setting) lengths.mode_s lengths.mode_ac lengths.memory }
{
    lengths.memory == setting.memory_len()
        && lengths.mode_s == setting.prototype_len()
        && lengths.mode_ac == setting.prototype_len()
}

// The delay of a prototype of a mode; none where a value is not finite or above 16 in size.
#[tactic(auto, unfolding(constants::specs::Setting::by_mode, crate::specs::Opening::mode_s_delay, crate::specs::Opening::mode_ac_delay))]
fn delay(mode: Mode, level: f32, prototype: &[f32]) -> Option<f64>
    ensures { result ≡ by_mode mode (mode_s_delay level prototype.now) (mode_ac_delay level prototype.now) }
{
    if pulse_shape::all_within_16(prototype) {
        pulse_shape::group_delay(mode, level, prototype)
    } else {
        None
    }
}

// The state before the first run call, or refusal 6.
#[tactic(auto, unfolding(crate::specs::Opening::first_state, crate::specs::Opening::delays_then, crate::specs::Opening::delays_given, pulse_shape::specs::GroupDelay::crossing_answer))]
fn first_state(
    setting: SamplesPerPulse,
    rates: MessagesPerSecond,
    total: u64,
    all: Distributions,
    mode_s: Option<f64>,
    mode_ac: Option<f64>,
) -> Result<State, Refusal>
    ensures { result ≡ delays_then setting rates total all mode_s mode_ac }
{
    let delays = Delays {
        mode_s: mode_s.ok_or(Refusal::Prototype)?,
        mode_ac: mode_ac.ok_or(Refusal::Prototype)?,
    };
    Ok(State {
        written: 0,
        total,
        time: 0.0,
        latest: 0.0,
        ended: false,
        rates,
        delays,
        distributions: all,
        setting,
    })
}

// The prototype of a mode, at the start of an array that holds one at either setting.
#[tactic(auto, unfolding(constants::specs::Setting::by_mode, pulse_shape::specs::Prototype::prototype_of))]
fn prototype(setting: SamplesPerPulse, mode: Mode, lowpass: &[f32]) -> [f32; MAX_PROTOTYPE_LEN]
    ensures { take (prototype_length (per_pulse setting)) result ≡ by_mode mode (mode_s_prototype (per_pulse setting) lowpass.now) (mode_ac_prototype (per_pulse setting) lowpass.now) }
{
    let n = setting.prototype_len();
    let mut values = [0.0; MAX_PROTOTYPE_LEN];
    pulse_shape::prototype(setting, mode, lowpass, &mut values[..n]);
    values
}

// Refusal 5, then 6, of settings that give a run of these samples and distributions. Where it is 5, no prototype is made.
#[tactic(auto, unfolding(constants::specs::Setting::by_mode, crate::specs::Opening::taps_of, crate::specs::Opening::delays_of, crate::specs::Opening::with_prototypes, crate::specs::Opening::prepared_read))]
fn check_taps(
    setting: SamplesPerPulse,
    s: Settings,
    total: u64,
    all: Distributions,
    taps: Filters,
) -> Result<Prepared, Refusal>
    ensures { prepared_read result ≡ with_prototypes taps.entry.mode_s.now taps.entry.mode_ac.now (taps_of setting s.trigger_level taps.entry.mode_s.now taps.entry.mode_ac.now s.rates total all) }
{
    if !pulse_shape::taps_accepted(setting, Mode::S, taps.mode_s)
        || !pulse_shape::taps_accepted(setting, Mode::Ac, taps.mode_ac)
    {
        return Err(Refusal::Taps);
    }
    let n = setting.prototype_len();
    let mode_s = prototype(setting, Mode::S, taps.mode_s);
    let mode_ac = prototype(setting, Mode::Ac, taps.mode_ac);
    let delay_s = delay(Mode::S, s.trigger_level, &mode_s[..n]);
    let delay_ac = delay(Mode::Ac, s.trigger_level, &mode_ac[..n]);
    let state = first_state(setting, s.rates, total, all, delay_s, delay_ac)?;
    Ok(Prepared {
        state,
        mode_s,
        mode_ac,
    })
}

// What opening answers at a setting where every length is right: refusals 1 to 4, 14, 5 and 6, or the state and its prototypes. Refusals 15 and 9 are looked for by the caller, who has the setting from `settings::samples_per_pulse`.
#[tactic(auto, unfolding(crate::specs::Opening::opened_at, crate::specs::Opening::settings_then, crate::specs::Opening::with_prototypes, crate::specs::Opening::prepared_read))]
pub fn prepare_at(
    setting: SamplesPerPulse,
    settings: &[u8],
    taps: Filters,
) -> Result<Prepared, Refusal>
    ensures { prepared_read result ≡ with_prototypes taps.entry.mode_s.now taps.entry.mode_ac.now (opened_at taps.entry.mode_s.now taps.entry.mode_ac.now settings.now setting) }
{
    let s = settings::read(settings);
    let (total, all) = settings::check(setting, s)?;
    check_taps(setting, s, total, all, taps)
}

// What opening answers, given prototypes and working memory of these lengths: refusals 15 and 9, then 1 to 4, 14, 5 and 6, or the state and its prototypes.
#[tactic(auto, unfolding(crate::specs::Opening::opened_for, settings::specs::Accepted::at_setting, crate::specs::Opening::lengths_then, crate::specs::Opening::with_prototypes, crate::specs::Opening::prepared_read))]
pub fn prepare(settings: &[u8], taps: Filters, lengths: Lengths) -> Result<Prepared, Refusal>
    ensures { prepared_read result ≡ with_prototypes taps.entry.mode_s.now taps.entry.mode_ac.now (opened_for taps.entry.mode_s.now taps.entry.mode_ac.now settings.now lengths.mode_s lengths.mode_ac lengths.memory) }
{
    let setting = settings::samples_per_pulse(settings)?;
    if !buffers_fit(setting, lengths) {
        return Err(Refusal::Length);
    }
    prepare_at(setting, settings, taps)
}

// Writes a list over the first values of another, as far as either goes.
#[inline(always)]
#[tactic(auto, unfolding(crate::specs::FillModel::over))]
fn copy(from: &[f32], to: &mut [f32])
    ensures { to.new ≡ over from.now to.old }
{
    let n = from.len().min(to.len());
    to[..n].copy_from_slice(&from[..n]);
}

// Writes two lists over the prototypes and sets working memory to 0.0. Three slices, here and in `open`, as C lends them: no struct of `&mut` slices, of which each contract would have to promise besides that every field is still the same borrow.
#[inline(always)]
pub fn fill(prototypes: Filters, mode_s: &mut [f32], mode_ac: &mut [f32], memory: &mut [f32])
    ensures { (mode_s.new ≡ over prototypes.entry.mode_s.now mode_s.old) × (mode_ac.new ≡ over prototypes.entry.mode_ac.now mode_ac.old) × (memory.new ≡ zeros (length memory.old)) }
{
    copy(prototypes.mode_s, mode_s);
    copy(prototypes.mode_ac, mode_ac);
    memory.fill(0.0);
}

// Opens a run (SPECIFICATION 8).
#[tactic(auto, unfolding(crate::specs::Opening::with_prototypes, crate::specs::Opening::prepared_read, crate::specs::Opening::opened_of, crate::specs::Opening::left_by))]
pub fn open(
    settings: &[u8],
    taps: Filters,
    mode_s: &mut [f32],
    mode_ac: &mut [f32],
    memory: &mut [f32],
) -> Result<State, Refusal>
    ensures { (result ≡ opened_of taps.entry.mode_s.now taps.entry.mode_ac.now settings.now (record { mode_s = mode_s.old; mode_ac = mode_ac.old; memory = memory.old })) × (record { mode_s = mode_s.new; mode_ac = mode_ac.new; memory = memory.new } ≡ left_by taps.entry.mode_s.now taps.entry.mode_ac.now result (record { mode_s = mode_s.old; mode_ac = mode_ac.old; memory = memory.old })) }
{
    let lengths = Lengths {
        mode_s: mode_s.len(),
        mode_ac: mode_ac.len(),
        memory: memory.len(),
    };
    let p = prepare(settings, taps, lengths)?;
    fill(p.prototypes(), mode_s, mode_ac, memory);
    Ok(p.state)
}
