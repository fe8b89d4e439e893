// Distributions of a message's parameters, after distributions.rs: carrier offset, carrier phase and symbol clock error; what each asks of its numbers, whether a draw is in its range, and what a draw becomes.
// Each function is equal to a definition of specs/ on every input.
#![tactic(auto)]

ghost use Rattle.std.specs.Prelude.{◌≡◌};
ghost use Rattle.constants.specs.Setting.{per_pulse};
ghost use Rattle.distributions.specs.Accepted.{up_to, finite_not_negative, offset_limit, carrier_offset, clamped_normal, carrier_phase, clock_error};
ghost use Rattle.distributions.specs.Drawn.{offset_draw_fits, phase_draw_fits, clock_draw_fits, clamped, offset_of, phase_of, error_of};

use constants::SamplesPerPulse;
use refusals::Refusal;

#[derive(Clone, Copy)]
pub enum CarrierOffset {
    Constant(f64),
    ClampedNormal(f64, f64),
}

// Two kinds by name, of which neither is a value that may be missing: no Option.
#[derive(Clone, Copy)]
pub enum CarrierPhase {
    Constant(f64),
    Uniform,
}

#[derive(Clone, Copy)]
pub enum ClockError {
    Constant(f64),
    Uniform(f64),
}

// A distribution as the settings ask for it: its kind, a byte whose meaning depends on which of the three it is (an unknown one is refused with its place), and two numbers.
#[derive(Clone, Copy)]
pub struct RawDistribution {
    pub kind: u8,
    pub first: f64,
    pub second: f64,
}

// x is from 0 to a limit.
#[tactic(auto, unfolding(crate::specs::Accepted::up_to))]
fn up_to(x: f64, limit: f64) -> bool
    ensures { result ≡ up_to x limit }
{
    x >= 0.0 && x <= limit
}

// x is finite and not negative.
#[tactic(auto, unfolding(crate::specs::Accepted::finite_not_negative))]
pub fn finite_not_negative(x: f64) -> bool
    ensures { result ≡ finite_not_negative x }
{
    0.0 <= x && floats::finite(x)
}

// The largest size of a carrier offset.
#[tactic(auto, using(crate::proofs::Literals::offset_limit_is))]
fn offset_limit(setting: SamplesPerPulse) -> f64
    ensures { result ≡ offset_limit (per_pulse setting) }
{
    match setting {
        SamplesPerPulse::Four => 4000000.0,
        SamplesPerPulse::Eight => 8000000.0,
    }
}

#[tactic(auto, unfolding(crate::specs::Accepted::clamped_normal))]
fn clamped_normal(setting: SamplesPerPulse, sigma: f64, max: f64) -> Result<CarrierOffset, Refusal>
    ensures { result ≡ clamped_normal (per_pulse setting) sigma max }
{
    if finite_not_negative(sigma) && up_to(max, offset_limit(setting)) {
        return Ok(CarrierOffset::ClampedNormal(sigma, max));
    }
    Err(Refusal::Distribution(0))
}

// The distribution of the carrier offset, or a refusal.
#[tactic(auto, unfolding(crate::specs::Accepted::carrier_offset, crate::specs::Accepted::by_kind))]
pub fn carrier_offset(
    setting: SamplesPerPulse,
    d: RawDistribution,
) -> Result<CarrierOffset, Refusal>
    ensures { result ≡ carrier_offset (per_pulse setting) d }
{
    match d.kind {
        0 if floats::within(d.first, offset_limit(setting)) => Ok(CarrierOffset::Constant(d.first)),
        1 => clamped_normal(setting, d.first, d.second),
        _ => Err(Refusal::Distribution(0)),
    }
}

// The distribution of the carrier phase, or a refusal. A constant phase is wrapped.
#[tactic(auto, unfolding(crate::specs::Accepted::carrier_phase, crate::specs::Accepted::by_kind))]
pub fn carrier_phase(d: RawDistribution) -> Result<CarrierPhase, Refusal>
    ensures { result ≡ carrier_phase d }
{
    match d.kind {
        0 if floats::finite(d.first) => {
            let wrapped = math::phase_wrap_f64(d.first);
            Ok(CarrierPhase::Constant(wrapped))
        }
        1 => Ok(CarrierPhase::Uniform),
        _ => Err(Refusal::Distribution(1)),
    }
}

// The distribution of the symbol clock error, or a refusal.
#[tactic(auto, unfolding(crate::specs::Accepted::clock_error, crate::specs::Accepted::by_kind), using(crate::proofs::Literals::tenth_is))]
pub fn clock_error(d: RawDistribution) -> Result<ClockError, Refusal>
    ensures { result ≡ clock_error d }
{
    match d.kind {
        0 if floats::within(d.first, 0.1) => Ok(ClockError::Constant(d.first)),
        1 if up_to(d.first, 0.1) => Ok(ClockError::Uniform(d.first)),
        _ => Err(Refusal::Distribution(2)),
    }
}

// Three functions for each question, here and below, and no trait: each distribution has a rule of its own, and no caller is generic over them.

// Whether a carrier draw is in range.
#[tactic(auto, unfolding(crate::specs::Drawn::offset_draw_fits))]
pub fn offset_draw_fits(d: CarrierOffset, draw: f64) -> bool
    ensures { result ≡ offset_draw_fits d draw }
{
    match d {
        CarrierOffset::Constant(_) => true,
        CarrierOffset::ClampedNormal(_, _) => floats::finite(draw),
    }
}

#[tactic(auto, unfolding(crate::specs::Drawn::from_minus_pi_below_pi), using(math::proofs::Literals::pi_is))]
fn from_minus_pi_below_pi(x: f64) -> bool
    ensures { result ≡ Rattle.distributions.specs.Drawn.from_minus_pi_below_pi x }
{
    x >= -3.141592653589793 && x < 3.141592653589793
}

// Whether a phase draw is in range.
#[tactic(auto, unfolding(crate::specs::Drawn::phase_draw_fits))]
pub fn phase_draw_fits(d: CarrierPhase, draw: f64) -> bool
    ensures { result ≡ phase_draw_fits d draw }
{
    match d {
        CarrierPhase::Constant(_) => true,
        CarrierPhase::Uniform => from_minus_pi_below_pi(draw),
    }
}

// Whether a clock draw is in range.
#[tactic(auto, unfolding(crate::specs::Drawn::clock_draw_fits))]
pub fn clock_draw_fits(d: ClockError, draw: f64) -> bool
    ensures { result ≡ clock_draw_fits d draw }
{
    match d {
        ClockError::Constant(_) => true,
        ClockError::Uniform(max) => floats::within(draw, max),
    }
}

// Rust's `x.clamp(-max, max)` for any max: std's own asks that the lower limit is not above the upper one.
#[tactic(auto, unfolding(crate::specs::Drawn::clamped))]
fn clamp(x: f64, max: f64) -> f64
    ensures { result ≡ clamped x max }
{
    if x < -max {
        return -max;
    }
    if x > max {
        return max;
    }
    x
}

// The carrier offset that a draw gives.
#[tactic(auto, unfolding(crate::specs::Drawn::offset_of))]
pub fn offset_of(d: CarrierOffset, draw: f64) -> f64
    ensures { result ≡ offset_of d draw }
{
    match d {
        CarrierOffset::Constant(x) => x,
        CarrierOffset::ClampedNormal(sigma, max) => clamp(draw * sigma, max),
    }
}

// The carrier phase that a draw gives.
#[tactic(auto, unfolding(crate::specs::Drawn::phase_of))]
pub fn phase_of(d: CarrierPhase, draw: f64) -> f64
    ensures { result ≡ phase_of d draw }
{
    match d {
        CarrierPhase::Constant(x) => x,
        CarrierPhase::Uniform => draw,
    }
}

// The clock error that a draw gives.
#[tactic(auto, unfolding(crate::specs::Drawn::error_of))]
pub fn error_of(d: ClockError, draw: f64) -> f64
    ensures { result ≡ error_of d draw }
{
    match d {
        ClockError::Constant(x) => x,
        ClockError::Uniform(_) => draw,
    }
}
