// What a booking will use, under C names.
#![tactic(auto)]

ghost use Rattle.std.specs.Prelude.{Err, ◌≡◌};
ghost use Rattle.run_booking.specs.Booking.{booking_of};
ghost use Rattle.run_booking.specs.Booked.{figures_read, booked_read};
ghost use Rattle.more1090_booking.specs.Flat.{zero64, booking_flat, ended_flat};

use pulse_shape::Filters;
use refusals::Refusal;
use run_booking::{End, Figures};

// Refusal 0 is none. Where a draw ends the run, ended is 1 and draw its index; where draws ran out, ended is 0 and time that of the last one. Each field has 8 bytes, so that there is no padding.
#[repr(C)]
#[derive(Clone, Copy)]
pub struct FlatBooking {
    pub samples: u64,
    pub noise: u64,
    pub records: u64,
    pub taken: u64,
    pub ended: u64,
    pub draw: u64,
    pub time: f64,
    pub refusal: u64,
    pub value: u64,
    pub field: u64,
}

const ZEROS: FlatBooking = FlatBooking {
    samples: 0,
    noise: 0,
    records: 0,
    taken: 0,
    ended: 0,
    draw: 0,
    time: 0.0,
    refusal: 0,
    value: 0,
    field: 0,
};

#[tactic(auto, unfolding(crate::specs::Flat::ended_flat, run_booking::specs::Booked::figures_read, run_booking::specs::Answered::end_read))]
fn figures_out(f: Figures) -> FlatBooking
    ensures { result ≡ ended_flat (figures_read f) (figures_read f).end }
{
    let counts = FlatBooking {
        samples: f.samples,
        noise: f.noise,
        records: f.records,
        taken: f.taken,
        ..ZEROS
    };
    match f.end {
        End::Draw(k) => FlatBooking {
            ended: 1,
            draw: k,
            ..counts
        },
        End::RanOut(time) => FlatBooking { time, ..counts },
    }
}

#[tactic(auto, unfolding(crate::specs::Flat::booking_flat))]
fn refusal_out(q: Refusal) -> FlatBooking
    ensures { result ≡ booking_flat (Err q) }
{
    let v = refusals::values_of(q);
    FlatBooking {
        refusal: q.number(),
        value: v.value,
        field: v.field,
        ..ZEROS
    }
}

#[tactic(auto, unfolding(crate::specs::Flat::booking_flat, run_booking::specs::Booked::booked_read))]
fn booked_out(b: Result<Figures, Refusal>) -> FlatBooking
    ensures { result ≡ booking_flat (booked_read b) }
{
    match b {
        Ok(f) => figures_out(f),
        Err(q) => refusal_out(q),
    }
}

// What a part of the draws will use, the time before its first draw given: 0.0, or the time at which the part before ran out.
#[unsafe(no_mangle)]
pub extern "C" fn more1090_booking_part(
    time: f64,
    settings: &[u8],
    taps_s: &[f32],
    taps_ac: &[f32],
    draws: &[u8],
) -> FlatBooking
    ensures { result ≡ booking_flat (booking_of taps_s.now taps_ac.now time settings.now draws.now) }
{
    let taps = Filters {
        mode_s: taps_s,
        mode_ac: taps_ac,
    };
    booked_out(run_booking::booking(time, settings, taps, draws))
}

// What a run of these settings, filters and draws will use.
#[unsafe(no_mangle)]
pub extern "C" fn more1090_booking(
    settings: &[u8],
    taps_s: &[f32],
    taps_ac: &[f32],
    draws: &[u8],
) -> FlatBooking
    ensures { result ≡ booking_flat (booking_of taps_s.now taps_ac.now zero64 settings.now draws.now) }
{
    more1090_booking_part(0.0, settings, taps_s, taps_ac, draws)
}
