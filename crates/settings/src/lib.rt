// A run's settings: their 124 bytes, the rate of a type, and refusals 15, 1 to 4 and 14. Each function is equal to a definition of specs/ on every input.
#![tactic(auto)]

ghost use Rattle.std.specs.Prelude.{◌≡◌, ◌≤◌};
ghost use Rattle.settings.specs.Settings.{settings_length, rates_at, raw_distribution_at, settings_of, rate_of, rates_of};
ghost use Rattle.constants.specs.Setting.{per_pulse};
ghost use Rattle.settings.specs.Accepted.{setting_at, first_bad_rate, total_of, total_fits, distributions_of, rates_then, values_of, level_in_range, accepted_of};

use constants::SamplesPerPulse;
use distributions::{CarrierOffset, CarrierPhase, ClockError, RawDistribution};
use refusals::Refusal;

// Bytes of settings.
pub const SETTINGS_LEN: usize = 124;

// The least and the greatest trigger level: the nearest f32 of 0.1 and of 0.9.
const LEAST_LEVEL: f32 = 0.1;

const GREATEST_LEVEL: f32 = 0.9;

// Messages per second for each message type, in the order of the types.
#[derive(Clone, Copy)]
pub struct MessagesPerSecond {
    pub extended_squitter: f64,
    pub acquisition_squitter: f64,
    pub short_ap: f64,
    pub all_call_reply: f64,
    pub long_ap: f64,
    pub military_extended_squitter: f64,
    pub mode_ac: f64,
}

#[derive(Clone, Copy)]
pub struct Settings {
    pub seconds: u64,
    pub nanoseconds: u32,
    pub rates: MessagesPerSecond,
    pub carrier: RawDistribution,
    pub phase: RawDistribution,
    pub clock: RawDistribution,
    pub trigger_level: f32,
}

#[derive(Clone, Copy)]
pub struct Distributions {
    pub carrier: CarrierOffset,
    pub phase: CarrierPhase,
    pub clock: ClockError,
}

#[tactic(auto, unfolding(crate::specs::Settings::rates_at))]
fn rates_at(s: &[u8], at: usize) -> MessagesPerSecond
    requires { at ≤ settings_length }
    ensures { result ≡ rates_at s.now at }
{
    MessagesPerSecond {
        extended_squitter: le_read::number::<f64>(s, at),
        acquisition_squitter: le_read::number::<f64>(s, at + 8),
        short_ap: le_read::number::<f64>(s, at + 16),
        all_call_reply: le_read::number::<f64>(s, at + 24),
        long_ap: le_read::number::<f64>(s, at + 32),
        military_extended_squitter: le_read::number::<f64>(s, at + 40),
        mode_ac: le_read::number::<f64>(s, at + 48),
    }
}

#[tactic(auto, unfolding(crate::specs::Settings::raw_distribution_at))]
fn raw_distribution_at(s: &[u8], at: usize) -> RawDistribution
    requires { at ≤ settings_length }
    ensures { result ≡ raw_distribution_at s.now at }
{
    RawDistribution {
        kind: le_read::byte_at(s, at),
        first: le_read::number::<f64>(s, at + 1),
        second: le_read::number::<f64>(s, at + 9),
    }
}

// The settings at the start of the bytes, 0 standing for each number whose bytes run past the end.
#[tactic(auto, unfolding(crate::specs::Settings::settings_of))]
pub fn read(s: &[u8]) -> Settings
    ensures { result ≡ settings_of s.now }
{
    Settings {
        seconds: le_read::number::<u64>(s, 0),
        nanoseconds: le_read::number::<u32>(s, 8),
        rates: rates_at(s, 12),
        carrier: raw_distribution_at(s, 68),
        phase: raw_distribution_at(s, 85),
        clock: raw_distribution_at(s, 102),
        trigger_level: le_read::number::<f32>(s, 119),
    }
}

// Where the samples per pulse stand, in the last byte of settings.
const SETTING_OFFSET: usize = 123;

// The samples per pulse of settings, or refusal 9 for their length, or 15 for another value.
#[tactic(auto, unfolding(crate::specs::Accepted::setting_at, crate::specs::Accepted::setting_by))]
pub fn samples_per_pulse(s: &[u8]) -> Result<SamplesPerPulse, Refusal>
    ensures { result ≡ setting_at s.now }
{
    if s.len() != SETTINGS_LEN {
        return Err(Refusal::Length);
    }
    match le_read::byte_at(s, SETTING_OFFSET) {
        4 => Ok(SamplesPerPulse::Four),
        8 => Ok(SamplesPerPulse::Eight),
        _ => Err(Refusal::SamplesPerPulse),
    }
}

// The rate of the type with a number; 0.0 for a number that no type has.
#[tactic(auto, unfolding(crate::specs::Settings::rate_of, crate::specs::Settings::rates_of))]
pub fn rate_of(r: MessagesPerSecond, n: u64) -> f64
    ensures { result ≡ rate_of r n }
{
    match n {
        0 => r.extended_squitter,
        1 => r.acquisition_squitter,
        2 => r.short_ap,
        3 => r.all_call_reply,
        4 => r.long_ap,
        5 => r.military_extended_squitter,
        6 => r.mode_ac,
        _ => 0.0,
    }
}

#[tactic(auto, unfolding(crate::specs::Settings::rate_of, crate::specs::Settings::rates_of), using(crate::proofs::Rates::goes_on, crate::proofs::Rates::stops, crate::proofs::Rates::ends))]
fn first_bad_rate(rates: MessagesPerSecond) -> Option<u64>
    ensures { result ≡ first_bad_rate 0 (rates_of rates) }
{
    for k in 0..7 {
        if !distributions::finite_not_negative(rate_of(rates, k)) {
            return Some(k);
        }
    }
    None
}

#[tactic(auto, unfolding(crate::specs::Accepted::total_of, crate::specs::Accepted::sum_from, crate::specs::Settings::rates_of))]
fn total_of(r: MessagesPerSecond) -> f64
    ensures { result ≡ total_of (rates_of r) }
{
    r.extended_squitter
        + r.acquisition_squitter
        + r.short_ap
        + r.all_call_reply
        + r.long_ap
        + r.military_extended_squitter
        + r.mode_ac
}

#[tactic(auto, unfolding(crate::specs::Accepted::total_fits))]
fn total_fits(total: f64) -> bool
    ensures { result ≡ total_fits total }
{
    0.0 < total && floats::finite(total)
}

// Refusal 4, or the run's samples and its distributions.
#[tactic(auto, unfolding(crate::specs::Accepted::distributions_of, crate::specs::Accepted::with_offset, crate::specs::Accepted::with_phase, crate::specs::Accepted::with_clock))]
fn check_distributions(
    setting: SamplesPerPulse,
    n: u64,
    s: Settings,
) -> Result<(u64, Distributions), Refusal>
    ensures { result ≡ distributions_of (per_pulse setting) n s }
{
    let carrier = distributions::carrier_offset(setting, s.carrier)?;
    let phase = distributions::carrier_phase(s.phase)?;
    let clock = distributions::clock_error(s.clock)?;
    let all = Distributions {
        carrier,
        phase,
        clock,
    };
    Ok((n, all))
}

// Refusals 2 and 3, then 4.
#[tactic(auto, unfolding(crate::specs::Accepted::rates_then, crate::specs::Accepted::total_then))]
fn check_rates(
    setting: SamplesPerPulse,
    n: u64,
    s: Settings,
) -> Result<(u64, Distributions), Refusal>
    ensures { result ≡ rates_then (per_pulse setting) n s }
{
    if let Some(k) = first_bad_rate(s.rates) {
        return Err(Refusal::Rate(k));
    }
    if !total_fits(total_of(s.rates)) {
        return Err(Refusal::Total);
    }
    check_distributions(setting, n, s)
}

// Refusals 1 to 4, in that order, or the run's samples and its distributions.
#[tactic(auto, unfolding(crate::specs::Accepted::values_of, crate::specs::Accepted::duration_then))]
fn check_values(setting: SamplesPerPulse, s: Settings) -> Result<(u64, Distributions), Refusal>
    ensures { result ≡ values_of (per_pulse setting) s }
{
    let n = settings_duration::duration_as_samples(setting, s.seconds, s.nanoseconds)?;
    check_rates(setting, n, s)
}

#[tactic(auto, unfolding(crate::specs::Accepted::level_in_range))]
fn level_in_range(level: f32) -> bool
    ensures { result ≡ level_in_range level }
{
    LEAST_LEVEL <= level && level <= GREATEST_LEVEL
}

// Refusals 1 to 4 and 14, in that order, or the run's samples and its distributions.
#[tactic(auto, unfolding(crate::specs::Accepted::accepted_of, crate::specs::Accepted::level_then))]
pub fn check(setting: SamplesPerPulse, s: Settings) -> Result<(u64, Distributions), Refusal>
    ensures { result ≡ accepted_of (per_pulse setting) s }
{
    let accepted = check_values(setting, s)?;
    if !level_in_range(s.trigger_level) {
        return Err(Refusal::TriggerLevel);
    }
    Ok(accepted)
}
