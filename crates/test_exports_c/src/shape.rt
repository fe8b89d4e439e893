// Prototypes and group delays for C.
ghost use Rattle.std.specs.Prelude.{◌≡◌, [], ◌∷◌};
ghost use Rattle.constants.specs.Rate.{four};
ghost use Rattle.pulse_shape.specs.Prototype.{mode_s_prototype, mode_ac_prototype};
ghost use Rattle.pulse_shape.specs.GroupDelay.{group_delay, mode_ac_group_delay};
ghost use Rattle.test_exports.specs.Shape.{delay_number};

use test_exports::shape::PROTOTYPE_LEN;

#[unsafe(no_mangle)]
pub extern "C" fn port_prototypes(
    taps_s: &[f32],
    taps_ac: &[f32],
    out_s: &mut [f32; PROTOTYPE_LEN],
    out_ac: &mut [f32; PROTOTYPE_LEN],
)
    ensures { (out_s.new ≡ mode_s_prototype four taps_s.now) × (out_ac.new ≡ mode_ac_prototype four taps_ac.now) }
{
    test_exports::shape::port_prototypes(taps_s, taps_ac, out_s, out_ac);
}

// The delays of a prototype as one of Mode S and as one of Mode A/C, or -1.0 where nothing crosses the level.
#[unsafe(no_mangle)]
pub extern "C" fn port_group_delays(level: f32, prototype: &[f32], out: &mut [f64; 2])
    ensures { out.new ≡ delay_number (group_delay level prototype.now) ∷ (delay_number (mode_ac_group_delay level prototype.now) ∷ []) }
{
    test_exports::shape::port_group_delays(level, prototype, out);
}
