// Pulse maps, lengths and durations for C.
ghost use Rattle.std.specs.Prelude.{◌≡◌};
ghost use Rattle.constants.specs.Rate.{four, reply_limit};
ghost use Rattle.pulse_map.specs.ModeS.{mode_s_pulses};
ghost use Rattle.pulse_map.specs.ModeAC.{mode_ac_pulses};
ghost use Rattle.pulse_map.specs.Length.{mode_s_num_samples, mode_ac_num_samples};
ghost use Rattle.settings_duration.specs.Duration.{duration_of};
ghost use Rattle.test_exports.specs.Pulses.{samples_number};

use constants::MAX_POSITIONS;

// How many positions there are; where pulses stand goes to `on`, and the length in samples to `samples`.
#[unsafe(no_mangle)]
pub extern "C" fn port_mode_s_pulses(
    message: &[u8; 14],
    long: bool,
    on: &mut [bool; MAX_POSITIONS],
    samples: &mut usize,
) -> usize
    ensures { (result ≡ (mode_s_pulses message.now long).len) × ((on.new ≡ (mode_s_pulses message.now long).on) × (samples.new ≡ mode_s_num_samples four long)) }
{
    test_exports::pulse_maps::port_mode_s_pulses(message, long, on, samples)
}

#[unsafe(no_mangle)]
pub extern "C" fn port_mode_ac_pulses(
    data: u16,
    spi: bool,
    on: &mut [bool; MAX_POSITIONS],
    samples: &mut usize,
) -> usize
    ensures { (result ≡ (mode_ac_pulses «data» spi).len) × ((on.new ≡ (mode_ac_pulses «data» spi).on) × (samples.new ≡ mode_ac_num_samples four spi)) }
{
    test_exports::pulse_maps::port_mode_ac_pulses(data, spi, on, samples)
}

#[unsafe(no_mangle)]
pub extern "C" fn port_reply_limit() -> u64
    ensures { result ≡ reply_limit four }
{
    test_exports::pulse_maps::port_reply_limit()
}

// The samples, or 2^64 - 1 for refusal 1.
#[unsafe(no_mangle)]
pub extern "C" fn port_duration_as_samples(seconds: u64, nanoseconds: u32) -> u64
    ensures { result ≡ samples_number (duration_of four seconds nanoseconds) }
{
    test_exports::pulse_maps::port_duration_as_samples(seconds, nanoseconds)
}
