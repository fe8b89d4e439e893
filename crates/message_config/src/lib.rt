// The configuration of a message, after `MessageConfig` of simulation.rs: when it starts, how its filter's clock runs, and how its carrier rotates.
// Each function is equal to a definition of specs/ on every input.
#![tactic(auto)]

ghost use Rattle.std.specs.Prelude.{◌≡◌};
ghost use Rattle.constants.specs.Setting.{per_pulse};
ghost use Rattle.message_config.specs.Timing.{delay_of, unrounded_start, filter_clock_error};
ghost use Rattle.message_config.specs.Config.{config_start, onset_of};

use constants::SamplesPerPulse;
use message::{Reply, ReplyKind};
use std::f64::consts::TAU;

// A message's five floats with its reply.
#[derive(Clone, Copy)]
pub struct MessageConfig {
    pub time: f64,
    pub cn0: f64,
    pub offset: f64,
    pub phase: f64,
    pub error: f64,
    pub reply: Reply,
}

// The group delays of the two filters, in samples.
#[derive(Clone, Copy)]
pub struct Delays {
    pub mode_s: f64,
    pub mode_ac: f64,
}

// How a message's samples begin: the clock error of its filter, the clock's phase at the first sample, in samples, what the carrier rotates by in a sample, and its phase at the first sample.
#[derive(Clone, Copy)]
pub struct Onset {
    pub clock_error: f64,
    pub clock_phase: f64,
    pub carrier_rate: f64,
    pub carrier_phase: f64,
}

const MODE_AC_SAMP_RATE_RATIO: f64 = 1.0344827586206897;

#[tactic(auto, unfolding(crate::specs::Timing::delay_of))]
fn group_delay(delays: Delays, kind: ReplyKind) -> f64
    ensures { result ≡ delay_of delays kind }
{
    match kind {
        ReplyKind::Short | ReplyKind::Long => delays.mode_s,
        ReplyKind::ModeAc => delays.mode_ac,
    }
}

// The start before it is rounded up.
#[tactic(auto, unfolding(crate::specs::Timing::unrounded_start), using(crate::proofs::Literals::one_is))]
fn unrounded_start(time: f64, delay: f64, e: f64) -> f64
    ensures { result ≡ unrounded_start time delay e }
{
    time - delay / (1.0 + e)
}

// The clock error of the filter.
#[tactic(auto, unfolding(crate::specs::Timing::filter_clock_error), using(crate::proofs::Literals::one_is, crate::proofs::Literals::mode_ac_ratio_is))]
pub fn filter_clock_error(kind: ReplyKind, e: f64) -> f64
    ensures { result ≡ filter_clock_error kind e }
{
    match kind {
        ReplyKind::Short | ReplyKind::Long => e,
        ReplyKind::ModeAc => MODE_AC_SAMP_RATE_RATIO * (1.0 + e) - 1.0,
    }
}

impl MessageConfig {
    // The first sample.
    #[tactic(auto, unfolding(crate::specs::Config::config_start, crate::specs::Timing::start_of))]
    pub fn first_sample_index(self, delays: Delays) -> i64
        ensures { result ≡ config_start delays self }
    {
        let delay = group_delay(delays, self.reply.kind);
        floats::ceil_to_i64(unrounded_start(self.time, delay, self.error))
    }

    // How the samples begin.
    #[tactic(auto, unfolding(crate::specs::Config::onset_of, crate::specs::Config::config_start, crate::specs::Config::config_clock_error, crate::specs::Config::config_clock_phase, crate::specs::Config::config_rate, crate::specs::Config::config_phase, crate::specs::Timing::start_of, crate::specs::Timing::clock_phase, crate::specs::Carrier::carrier_rate, crate::specs::Carrier::first_phase, math::specs::Phase::two_pi), using(crate::proofs::Literals::one_is))]
    pub fn onset(self, setting: SamplesPerPulse, delays: Delays) -> Onset
        ensures { result ≡ onset_of (per_pulse setting) delays self }
    {
        let kind = self.reply.kind;
        let unrounded = unrounded_start(self.time, group_delay(delays, kind), self.error);
        let first = std::num::nearest_i64_to_f64(floats::ceil_to_i64(unrounded));
        let error = filter_clock_error(kind, self.error);
        let second = std::num::nearest_u64_to_f64(2_000_000 * setting.number());
        let turn = TAU * self.offset / second;
        Onset {
            clock_error: error,
            clock_phase: (first - unrounded) * (1.0 + error),
            carrier_rate: turn,
            carrier_phase: math::phase_wrap_f64(self.phase - (self.time - first) * turn),
        }
    }
}
