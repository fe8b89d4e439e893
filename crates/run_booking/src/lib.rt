// What a booking will use: opening's checks without working memory, then a walk over every draw, up to the one that ends the run, then the figures of the run. No sample is made.
#![tactic(auto)]

ghost use Rattle.std.specs.Prelude.{◌≡◌, ◌+◌, ◌*◌, ◌≤◌, ◌<◌, length, [], ◌^◌};
ghost use Rattle.run_theory.specs.Generator.{start_from};
ghost use Rattle.run_theory.specs.PlainRun.{kind_of};
ghost use Rattle.run_theory.specs.PlainBench.{draws_of};
ghost use Rattle.run_steps.specs.PlanModel.{counted};
ghost use Rattle.run_booking.specs.Walk.{walk_of};
ghost use Rattle.run_booking.specs.Answered.{walk_generator, walked_read};
ghost use Rattle.run_booking.specs.WalkModel.{kind_seen};
ghost use Rattle.run_booking.specs.Booking.{draws_then, booking_of};
ghost use Rattle.run_booking.specs.Booked.{booked_read};

use constants::{DRAW_LEN, SamplesPerPulse};
use message_config::Delays;
use pulse_shape::Filters;
use refusals::Refusal;
use run_call::State;
use settings::Distributions;

// Where a walk ends.
#[derive(Clone, Copy)]
pub enum End {
    // The index of the draw that ends the run.
    Draw(u64),
    // No draw does; the time of the last one, from which a next part goes on.
    RanOut(f64),
}

// The records, the draws taken, up to and with the one that ends the run, and where the walk ends.
#[derive(Clone, Copy)]
pub struct Walked {
    pub records: u64,
    pub taken: u64,
    pub end: End,
}

// What step 4 makes of a draw (SPECIFICATION 5.6, 9.4).
#[derive(Clone, Copy)]
pub enum Kind {
    Ignored,
    Ends,
    Reply,
}

// Of a draw's start.
#[tactic(auto, using(run_steps::proofs::Tests::negative_start, crate::proofs::Step4::ignored, crate::proofs::Step4::ends, crate::proofs::Step4::replies))]
fn kind_of(setting: SamplesPerPulse, total: u64, start: i64) -> Kind
    ensures { result ≡ kind_seen (kind_of (counted setting total) (start_from start)) }
{
    match u64::try_from(start) {
        Err(_) => Kind::Ignored,
        Ok(first) if total <= first + setting.reply_limit() => Kind::Ends,
        Ok(_) => Kind::Reply,
    }
}

// The walk over all draws in the bytes, the time before the first one given. An ignored draw's time counts.
#[tactic(auto, using(crate::proofs::Turn::passes, crate::proofs::Turn::stops, crate::proofs::Turn::replies, crate::proofs::Turn::ends))]
pub fn walk(
    setting: SamplesPerPulse,
    all: Distributions,
    delays: Delays,
    total: u64,
    time: f64,
    draws: &[u8],
) -> Walked
    ensures { (walked_read result ≡ walk_of (walk_generator setting all delays total) time (draws_of (walk_generator setting all delays total) draws.now)) × (65 * result.taken ≤ length draws.now) }
{
    let mut records: u64 = 0;
    let mut last = time;
    for k in 0..draws.len() / DRAW_LEN {
        let message = draw::pending(all, last, &draws[k * DRAW_LEN..]);
        let start = message.first_sample_index(delays);
        match kind_of(setting, total, start) {
            Kind::Ignored => last = message.time,
            Kind::Ends => {
                return Walked {
                    records,
                    taken: k as u64 + 1,
                    end: End::Draw(k as u64),
                };
            }
            Kind::Reply => {
                last = message.time;
                records += 1;
            }
        }
    }
    Walked {
        records,
        taken: (draws.len() / DRAW_LEN) as u64,
        end: End::RanOut(last),
    }
}

// The samples, noise values and records of a run, the draws that it takes, and where they end.
#[derive(Clone, Copy)]
pub struct Figures {
    pub samples: u64,
    pub noise: u64,
    pub records: u64,
    pub taken: u64,
    pub end: End,
}

// Refusal 7, or the figures. Every draw is checked, also those behind the one that ends the run.
#[tactic(auto, using(crate::proofs::Decided::draw_refused, crate::proofs::Decided::figures_given))]
fn of_run(s: State, time: f64, draws: &[u8]) -> Result<Figures, Refusal>
    requires { s.total ≤ 2 ^ 52 }
    ensures { booked_read result ≡ draws_then s [] [] time draws.now }
{
    let walked = walk(s.setting, s.distributions, s.delays, s.total, time, draws);
    if let Some((k, field)) = draw::first_fault(draws, s.rates, s.distributions) {
        return Err(Refusal::Draw(k, field));
    }
    Ok(Figures {
        samples: s.total,
        noise: 2 * s.total,
        records: walked.records,
        taken: walked.taken,
        end: walked.end,
    })
}

// What a run of these settings and filters will use of these draws, the time before the first of them given: 0.0, or where an earlier part of the draws ran out.
#[tactic(auto, unfolding(crate::specs::Booking::booking_of, crate::specs::Booking::booking_at, crate::specs::Booking::opened_then, settings::specs::Accepted::at_setting, crate::specs::Booked::booked_read), using(crate::proofs::InRange::few_samples, crate::proofs::Decided::prepared_then))]
pub fn booking(time: f64, settings: &[u8], taps: Filters, draws: &[u8]) -> Result<Figures, Refusal>
    ensures { booked_read result ≡ booking_of taps.entry.mode_s.now taps.entry.mode_ac.now time settings.now draws.now }
{
    let setting = settings::samples_per_pulse(settings)?;
    if draws.len() % DRAW_LEN != 0 {
        return Err(Refusal::Length);
    }
    let p = run_open::prepare_at(setting, settings, taps)?;
    of_run(p.state, time, draws)
}
