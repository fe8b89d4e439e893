// A reply's pulses and the samples that it lasts, after `message_to_pulses` and `message_num_samples` of simulation.rs.
// Each function is equal to a definition of specs/ on every input.
#![tactic(auto)]

ghost use Rattle.std.specs.Prelude.{◌≡◌};
ghost use Rattle.constants.specs.Setting.{per_pulse};
ghost use Rattle.reply_pulses.specs.ReplyPulses.{data_of, spi_of, pulses_of, num_samples_of};

use constants::SamplesPerPulse;
use message::{Reply, ReplyKind};
use pulse_map::Pulses;

// The twelve data bits of a Mode A/C message.
#[tactic(auto, unfolding(crate::specs::ReplyPulses::data_of))]
fn mode_ac_data(b: [u8; 14]) -> u16
    ensures { result ≡ data_of b }
{
    u16::from(b[0]) + u16::from(b[1]) % 16 * 256
}

#[tactic(auto, unfolding(crate::specs::ReplyPulses::spi_of))]
fn mode_ac_spi(b: [u8; 14]) -> bool
    ensures { result ≡ spi_of b }
{
    b[1] / 16 % 2 == 1
}

// The pulses of a reply.
#[tactic(auto, unfolding(crate::specs::ReplyPulses::pulses_of))]
pub fn message_to_pulses(r: Reply) -> Pulses
    ensures { result ≡ pulses_of r }
{
    let b = r.bytes;
    match r.kind {
        ReplyKind::Short => pulse_map::mode_s_pulses(b, false),
        ReplyKind::Long => pulse_map::mode_s_pulses(b, true),
        ReplyKind::ModeAc => pulse_map::mode_ac_pulses(mode_ac_data(b), mode_ac_spi(b)),
    }
}

// The samples that a reply lasts at the nominal clock rate.
#[tactic(auto, unfolding(crate::specs::ReplyPulses::num_samples_of))]
pub fn message_num_samples(setting: SamplesPerPulse, r: Reply) -> usize
    ensures { result ≡ num_samples_of (per_pulse setting) r }
{
    match r.kind {
        ReplyKind::Short => pulse_map::mode_s_num_samples(setting, false),
        ReplyKind::Long => pulse_map::mode_s_num_samples(setting, true),
        ReplyKind::ModeAc => pulse_map::mode_ac_num_samples(setting, mode_ac_spi(r.bytes)),
    }
}
