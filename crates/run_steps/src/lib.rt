// The steps of a run call: what comes next, from counts and the next draw alone, and what carrying it out makes of the counts. Counts are modulo 2^64, which no call reaches.
#![tactic(auto)]

ghost use Rattle.std.specs.Prelude.{◌≡◌, ◌+◌, ◌-◌, ◌/◌, ◌^◌, ◌<◌, min, false, pos, if◌then◌else◌};
ghost use Rattle.constants.specs.Rate.{hold_back};
ghost use Rattle.constants.specs.Setting.{per_pulse};
ghost use Rattle.constants.specs.declared.SamplesPerPulse.TheVariants.{Four};
ghost use Rattle.run_theory.specs.Generator.{start_from};
ghost use Rattle.run_theory.specs.PlainRun.{kind_of};
ghost use Rattle.run_call_model.specs.Plan.{plan_ended, plan_reply, plan_draw, some_or, due_many};
ghost use Rattle.run_steps.specs.PlanModel.{counted, plan_read, writable_of, chosen};
ghost use Rattle.std.specs.Float.Ieee.{lt};
ghost use Rattle.run_steps.specs.ProgressModel.{progress_after_samples, progress_after_draw, progress_after_stop, progress_after_step};

use constants::{DRAW_LEN, RECORD_LEN, SamplesPerPulse};
use message_config::{Delays, MessageConfig};

// Why a call stops, with the numbers that C has for it.
#[derive(Clone, Copy)]
pub enum Stop {
    Done = 0,
    OutputFull = 1,
    WantsNoise = 2,
    WantsDraws = 3,
    RecordsFull = 4,
}

// What comes next: a stop; n samples after the end draw, or by the start of the next draw, at its time; or a draw at its time, ignored, ending the run, or a reply from its start on.
#[derive(Clone, Copy)]
pub enum Plan {
    Halt(Stop),
    Drain(usize),
    Due(usize, f64),
    Skip(f64),
    End(f64),
    Add(f64, u64),
}

// What is left of a call's buffers: the numbers of output and of noise, and the bytes for records.
#[derive(Clone, Copy)]
pub struct Room {
    pub output: usize,
    pub noise: usize,
    pub records: usize,
}

// How many of the samples due can be written; none where a stop comes first.
fn batch(due: u64, room: Room) -> usize
    ensures { result ≡ Rattle.run_call_model.specs.Plan.batch due room.output room.noise }
{
    due.min((room.output / 2).min(room.noise / 2) as u64) as usize
}

// How many can be written, or the stop where none can.
#[tactic(auto, unfolding(crate::specs::PlanModel::writable_of))]
fn writable(due: u64, room: Room) -> Result<usize, Stop>
    ensures { result ≡ writable_of due room }
{
    let n = batch(due, room);
    if 0 < n {
        Ok(n)
    } else if room.output < 2 {
        Err(Stop::OutputFull)
    } else {
        Err(Stop::WantsNoise)
    }
}

// After the end draw: the samples that are left. They do not depend on the samples per pulse, so that either setting gives them.
#[tactic(auto, unfolding(crate::specs::PlanModel::plan_read, crate::specs::PlanModel::stop_read, crate::specs::PlanModel::writable_of))]
fn drain(written: u64, total: u64, room: Room) -> Plan
    ensures { plan_read result ≡ plan_ended (counted Four total) written room.output room.noise }
{
    if total <= written {
        return Plan::Halt(Stop::Done);
    }
    match writable(total - written, room) {
        Ok(n) => Plan::Drain(n),
        Err(w) => Plan::Halt(w),
    }
}

// How many samples are due before a start, those held back left out.
fn due_before(setting: SamplesPerPulse, first: u64, written: u64) -> u64
    ensures { result ≡ first - hold_back (per_pulse setting) - written }
{
    first
        .saturating_sub(setting.hold_back())
        .saturating_sub(written)
}

// The samples due by the start of a draw at its time.
#[tactic(auto, unfolding(crate::specs::PlanModel::plan_read, crate::specs::PlanModel::stop_read, crate::specs::PlanModel::writable_of))]
fn due(n: u64, time: f64, room: Room) -> Plan
    ensures { plan_read result ≡ some_or (λ k. due_many k time) (Rattle.run_call_model.specs.Plan.batch n room.output room.noise) room.output }
{
    match writable(n, room) {
        Ok(k) => Plan::Due(k, time),
        Err(w) => Plan::Halt(w),
    }
}

// A reply that starts at a sample.
#[tactic(auto, unfolding(crate::specs::PlanModel::plan_read, crate::specs::PlanModel::stop_read))]
fn reply(setting: SamplesPerPulse, written: u64, time: f64, first: u64, room: Room) -> Plan
    ensures { plan_read result ≡ plan_reply (counted setting 0) (first - hold_back (per_pulse setting) - written) time first room.output room.noise room.records }
{
    let n = due_before(setting, first, written);
    if 0 < n {
        return due(n, time, room);
    }
    if room.records < RECORD_LEN {
        return Plan::Halt(Stop::RecordsFull);
    }
    Plan::Add(time, first)
}

// What comes of a draw with this time and start.
#[tactic(auto, using(crate::proofs::Tests::negative_start, crate::proofs::Tests::skips, crate::proofs::Tests::ends_run, crate::proofs::Tests::replies))]
fn classify(
    setting: SamplesPerPulse,
    written: u64,
    total: u64,
    time: f64,
    start: i64,
    room: Room,
) -> Plan
    ensures { plan_read result ≡ plan_draw (counted setting total) written time (kind_of (counted setting total) (start_from start)) room.output room.noise room.records }
{
    let Ok(first) = u64::try_from(start) else {
        return Plan::Skip(time);
    };
    if total <= first + setting.reply_limit() {
        return Plan::End(time);
    }
    reply(setting, written, time, first, room)
}

// What comes next, given the message of the next draw and how much is left of the buffers: the draw bytes, the numbers of output and noise, and the bytes for records.
#[tactic(auto, using(crate::proofs::Tests::chose_ended, crate::proofs::Tests::chose_none, crate::proofs::Tests::chose_draw))]
pub fn choose(
    setting: SamplesPerPulse,
    ended: bool,
    written: u64,
    total: u64,
    delays: Delays,
    last: MessageConfig,
    rest: usize,
    room: Room,
) -> Plan
    ensures { plan_read result ≡ chosen setting ended written total delays last rest room.output room.noise room.records }
{
    if ended {
        return drain(written, total, room);
    }
    if rest < DRAW_LEN {
        return Plan::Halt(Stop::WantsDraws);
    }
    let start = last.first_sample_index(delays);
    classify(setting, written, total, last.time, start, room)
}

// A call so far: what of the state moves, the counts, and how the call came here. The reply samples added are counted in two halves.
#[derive(Clone, Copy)]
pub struct Progress {
    pub written: u64,
    pub time: f64,
    pub latest: f64,
    pub ended: bool,
    pub taken: usize,
    pub samples: usize,
    pub records: usize,
    pub added_high: u64,
    pub added_low: u64,
    pub last: LastStep,
}

// Samples were written; a draw was taken; or the call stopped.
#[derive(Clone, Copy)]
pub enum LastStep {
    SamplesWritten,
    DrawTaken,
    StopReached(Stop),
}

// The progress after n samples, with the latest time after them.
#[tactic(auto, unfolding(crate::specs::ProgressModel::progress_after_samples))]
fn after_samples(t: Progress, n: usize, latest: f64) -> Progress
    ensures { result ≡ progress_after_samples t n latest }
{
    Progress {
        written: t.written.wrapping_add(n as u64),
        latest,
        samples: t.samples.wrapping_add(n),
        last: LastStep::SamplesWritten,
        ..t
    }
}

// The later of two times; `max` would not do, since it passes over a NaN.
fn later(a: f64, b: f64) -> f64
    ensures { result ≡ (if lt a b then b else a) }
{
    if a < b { b } else { a }
}

// The progress after a draw was taken at its time, with n records more and the samples that its reply added to.
#[tactic(auto, using(crate::proofs::Joined::draw_taken_is, crate::proofs::Joined::carried_is))]
fn after_draw(t: Progress, time: f64, ended: bool, lines: usize, count: u16) -> Progress
    ensures { result ≡ progress_after_draw t time ended lines count }
{
    let (added_low, carried) = t.added_low.overflowing_add(u64::from(count));
    Progress {
        time,
        ended,
        taken: t.taken.wrapping_add(1),
        records: t.records.wrapping_add(lines),
        added_high: t.added_high.wrapping_add(u64::from(carried)),
        added_low,
        last: LastStep::DrawTaken,
        ..t
    }
}

#[tactic(auto, unfolding(crate::specs::ProgressModel::progress_after_stop))]
fn after_stop(t: Progress, w: Stop) -> Progress
    ensures { result ≡ progress_after_stop t w }
{
    Progress {
        last: LastStep::StopReached(w),
        ..t
    }
}

// The progress after a plan was carried out, given the count of the reply that it added.
#[tactic(auto, unfolding(crate::specs::ProgressModel::progress_after_step))]
pub fn after_step(t: Progress, p: Plan, count: u16) -> Progress
    ensures { result ≡ progress_after_step t p count }
{
    match p {
        Plan::Halt(w) => after_stop(t, w),
        Plan::Drain(n) => after_samples(t, n, t.latest),
        Plan::Due(n, time) => after_samples(t, n, later(t.latest, time)),
        Plan::Skip(time) => after_draw(t, time, t.ended, 0, 0),
        Plan::End(time) => after_draw(t, time, true, 0, 0),
        Plan::Add(time, _) => after_draw(t, time, t.ended, 1, count),
    }
}
