// Prototypes and group delays under C names, for the differential harness to call: each function only calls, turns an answer into numbers, and promises what it calls promises.
ghost use Rattle.std.specs.Prelude.{◌≡◌, [], ◌∷◌};
ghost use Rattle.constants.specs.Rate.{four};
ghost use Rattle.pulse_shape.specs.Prototype.{mode_s_prototype, mode_ac_prototype};
ghost use Rattle.pulse_shape.specs.GroupDelay.{group_delay, mode_ac_group_delay};
ghost use Rattle.test_exports.specs.Shape.{delay_number};

use constants::{Mode, SamplesPerPulse};

// Values of a prototype at 4 samples per pulse.
pub const PROTOTYPE_LEN: usize = 1792;

#[tactic(auto, unfolding(constants::specs::Setting::by_mode, pulse_shape::specs::Prototype::prototype_of))]
#[unsafe(no_mangle)]
pub extern "C" fn port_prototypes(
    taps_s: &[f32],
    taps_ac: &[f32],
    out_s: &mut [f32; PROTOTYPE_LEN],
    out_ac: &mut [f32; PROTOTYPE_LEN],
)
    ensures { (out_s.new ≡ mode_s_prototype four taps_s.now) × (out_ac.new ≡ mode_ac_prototype four taps_ac.now) }
{
    pulse_shape::prototype(SamplesPerPulse::Four, Mode::S, taps_s, out_s);
    pulse_shape::prototype(SamplesPerPulse::Four, Mode::Ac, taps_ac, out_ac);
}

#[tactic(auto, unfolding(crate::specs::Shape::delay_number))]
fn delay_number(crossing: Option<f64>) -> f64
    ensures { result ≡ delay_number crossing }
{
    crossing.unwrap_or(-1.0)
}

// The delays of a prototype as one of Mode S and as one of Mode A/C, or -1.0 where nothing crosses the level.
#[tactic(auto, unfolding(constants::specs::Setting::by_mode))]
#[unsafe(no_mangle)]
pub extern "C" fn port_group_delays(level: f32, prototype: &[f32], out: &mut [f64; 2])
    ensures { out.new ≡ delay_number (group_delay level prototype.now) ∷ (delay_number (mode_ac_group_delay level prototype.now) ∷ []) }
{
    *out = [
        delay_number(pulse_shape::group_delay(Mode::S, level, prototype)),
        delay_number(pulse_shape::group_delay(Mode::Ac, level, prototype)),
    ];
}
