// The filterbank under C names, for the differential harness to call: each function only calls, and promises what it calls promises.
ghost use Rattle.std.specs.Prelude.{◌≡◌, take};
ghost use Rattle.constants.specs.Rate.{four};
ghost use Rattle.filterbank.specs.Taps.{filter_taps};
ghost use Rattle.filterbank.specs.PaddedPulsesModel.{pad_pulses, padded_sum};
ghost use Rattle.filterbank.specs.Clocked.{step_of, start_clock, advance, in64};

use constants::{MAX_POSITIONS, SamplesPerPulse};
use filterbank::Clock;

#[unsafe(no_mangle)]
pub extern "C" fn port_filter_taps(prototype: &[f32], phase: f64, out: &mut [f32; 7])
    ensures { out.new ≡ filter_taps four prototype.now phase }
{
    *out = filterbank::filter_taps(SamplesPerPulse::Four, prototype, phase);
}

// The sum at a position, of the first `len` positions as `pad_pulses` pads them.
#[unsafe(no_mangle)]
pub extern "C" fn port_pulse_sum(
    taps: &[f32; 7],
    on: &[bool; MAX_POSITIONS],
    len: usize,
    index: usize,
) -> f32
    ensures { result ≡ padded_sum taps.now (pad_pulses (take len on.now)) index }
{
    let padded = filterbank::pad_pulses(&on[..len.min(MAX_POSITIONS)]);
    filterbank::pulse_sum(*taps, &padded, index)
}

// The clock before the first sample: its phase, and in `index` its index.
#[unsafe(no_mangle)]
pub extern "C" fn port_start_clock(phase: f64, index: &mut usize) -> f64
    ensures { (result ≡ (start_clock four phase).phase) × (index.new ≡ (start_clock four phase).index) }
{
    let clock = filterbank::start_clock(SamplesPerPulse::Four, phase);
    *index = clock.index;
    clock.phase
}

// The phase after one sample more of a clock with an error, and the index.
#[unsafe(no_mangle)]
pub extern "C" fn port_next_clock(phase: f64, error: f64, index: &mut usize) -> f64
    ensures { (result ≡ (in64 (advance (step_of four error) (record { phase = phase; index = index.old }))).phase) × (index.new ≡ (in64 (advance (step_of four error) (record { phase = phase; index = index.old }))).index) }
{
    let next = filterbank::advance(
        Clock {
            phase,
            index: *index,
        },
        filterbank::clock_step(SamplesPerPulse::Four, error),
    );
    *index = next.index;
    next.phase
}
