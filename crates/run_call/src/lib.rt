// Run calls: refusal 9 for lengths, 7 for draws, 8 for noise; and the steps, each a stop, samples that are due, or a draw, whose reply is added into working memory and recorded. What each yields is stated by models in specs/, of which the theory of lists of calls speaks.
// Memory, noise and output are passed apart, for the reason given beside `step`.
#![tactic(auto)]

ghost use Rattle.std.specs.Prelude.{◌≡◌, ◌||◌, false, true, cond, None, Some, ◌+◌, ◌*◌, ◌/◌, ◌%◌, length, ◌-◌, ◌≤◌, ◌<◌, ◌^◌};
ghost use Rattle.constants.specs.Setting.{per_pulse};
ghost use Rattle.run_theory.specs.PlainBench.{draw_refusal, draws_of};
ghost use Rattle.run_call.specs.Checks.{wrong_memory};
ghost use Rattle.run_call.specs.ChecksModel.{wrong_buffers, jump_of, fault_read, check_generator};
ghost use Rattle.run_generator.specs.Instance.{out_of_range};
ghost use Rattle.run_call.specs.RowsModel.{AllWithin};
ghost use Rattle.run_call.specs.NoiseModel.{out_of_range_from, noise_fault_read};
ghost use Rattle.constants.specs.Rate.{working_memory};
ghost use Rattle.run_theory.specs.Zeros.{zeros};
ghost use Rattle.run_call.specs.DueModel.{mix, samples_of, clear_of, DueBuffers, due_of};
ghost use Rattle.run_call.specs.RecordedModel.{memory_with, count_with, records_with};
ghost use Rattle.std.specs.Float.{nan};
ghost use Rattle.run_call.specs.CallModel.{initial_by, ran_by, call_left, refused_by, run_left};
ghost use Rattle.run_call.specs.StepModel.{Inside, progress_read, rest_after, StepSays};
ghost use Rattle.run_call.specs.StateGenerator.{gen_of};
ghost use Rattle.run_steps.specs.PlanModel.{plan_read, chosen};

use constants::{DRAW_LEN, NOISE_SCALE, RECORD_LEN, SamplesPerPulse};
use message_config::{Delays, MessageConfig};
use pulse_shape::Filters;
use refusals::Refusal;
use reply_add::ReplySignal;
use run_steps::{LastStep, Plan, Progress, Room};
use settings::{Distributions, MessagesPerSecond};
use std::simd::prelude::*;

// Refusal 9.
pub fn lengths_wrong(
    setting: SamplesPerPulse,
    memory: usize,
    mode_s: usize,
    mode_ac: usize,
    output: usize,
    draws: usize,
) -> bool
    ensures { result ≡ (wrong_memory (per_pulse setting) memory mode_s mode_ac || wrong_buffers output draws) }
{
    memory != setting.memory_len()
        || mode_s != setting.prototype_len()
        || mode_ac != setting.prototype_len()
        || output == 0
        || output % 2 != 0
        || draws % DRAW_LEN != 0
}

// A first draw jumps back.
#[tactic(auto, unfolding(crate::specs::ChecksModel::jump_of))]
fn jumps_back(time: f64, latest: f64, draws: &[u8]) -> bool
    ensures { result ≡ jump_of time latest draws.now }
{
    draws.len() >= DRAW_LEN && draw::time_after(time, draws) < latest
}

// Refusal 7: a first draw that jumps back, or the first draw and field at fault, as their places: the caller makes a refusal of them, here and in `check_noise`.
#[tactic(auto, unfolding(crate::specs::ChecksModel::fault_read), using(crate::proofs::Draws::jump_refused, crate::proofs::Draws::no_jump))]
pub fn check_draws(
    time: f64,
    latest: f64,
    rates: MessagesPerSecond,
    all: Distributions,
    draws: &[u8],
) -> Option<(u64, u64)>
    ensures { fault_read result ≡ draw_refusal (check_generator rates all) time (Some latest) (draws_of (check_generator rates all) draws.now) }
{
    if jumps_back(time, latest, draws) {
        return Some((0, 0));
    }
    draw::first_fault(draws, rates, all)
}

// The size that noise may have.
const NOISE_LIMIT: f32 = 64.0;

// The first noise value at fault.
#[tactic(auto, using(crate::proofs::NoiseInRange::out_of_range_at, crate::proofs::NoiseInRange::out_of_range_on, crate::proofs::NoiseInRange::out_of_range_end))]
fn first_out_of_range(noise: &[f32]) -> Option<u64>
    ensures { noise_fault_read result ≡ out_of_range_from 0 noise.now }
{
    for k in 0..noise.len() {
        if !floats::within_f32(noise[k], NOISE_LIMIT) {
            return Some(k as u64);
        }
    }
    None
}

// Values of a row.
const ROW: usize = 8;

// No value of a row is at fault. The processor compares several at once.
fn row_in_range(row: f32x8) -> bool
    ensures { result ≡ true → AllWithin row }
{
    row.simd_le(f32x8::splat(NOISE_LIMIT)).all() && row.simd_ge(f32x8::splat(-NOISE_LIMIT)).all()
}

// No noise value is at fault: by rows, since nearly always none is.
fn all_in_range(noise: &[f32]) -> bool
    ensures { cond result (out_of_range_from 0 noise.now) None ≡ None }
{
    let (rows, rest) = noise.as_chunks::<ROW>();
    for row in rows {
        if !row_in_range(f32x8::from_array(*row)) {
            return false;
        }
    }
    first_out_of_range(rest).is_none()
}

// Refusal 8.
#[tactic(auto, unfolding(crate::specs::NoiseModel::noise_fault_read))]
pub fn check_noise(noise: &[f32]) -> Option<u64>
    ensures { noise_fault_read result ≡ out_of_range_from 0 noise.now }
{
    if all_in_range(noise) {
        None
    } else {
        first_out_of_range(noise)
    }
}

// Writes a stretch of the memory with its noise.
#[tactic(auto, using(crate::proofs::Stretches::mix_first, crate::proofs::Stretches::mix_next, crate::proofs::Stretches::mix_all))]
fn mix_stretch(memory: &[f32], noise: &[f32], output: &mut [f32])
    requires { (length noise.now ≡ length memory.now) × (length output.old ≡ length memory.now) }
    ensures { output.new ≡ mix memory.now noise.now }
{
    for i in 0..memory.len() {
        output[i] = memory[i] + noise[i] * NOISE_SCALE;
    }
}

// Writes a stretch of the memory with its noise, and clears it: by two loops, so that the clearing is one call of `memset`.
fn stretch(memory: &mut [f32], noise: &[f32], output: &mut [f32])
    requires { (length noise.now ≡ length memory.old) × (length output.old ≡ length memory.old) }
    ensures { (output.new ≡ mix memory.old noise.now) × (memory.new ≡ zeros (length memory.old)) }
{
    mix_stretch(memory, noise, output);
    memory.fill(0.0);
}

// Writes samples from sample `written` on, two numbers each, stretch by stretch.
#[tactic(auto, using(crate::proofs::Stretches::starts, crate::proofs::Stretches::goes_on, crate::proofs::Stretches::all_written))]
fn write_all(
    setting: SamplesPerPulse,
    memory: &mut [f32],
    noise: &[f32],
    output: &mut [f32],
    written: u64,
)
    requires { (length memory.old ≡ working_memory (per_pulse setting)) × (length noise.now % 2 ≡ 0) × (length output.old ≡ length noise.now) }
    ensures { (output.new ≡ samples_of setting memory.old written noise.now) × (memory.new ≡ clear_of setting memory.old written (length noise.now / 2)) }
{
    let mut p = 2 * setting.slot_of(written);
    let mut done: usize = 0;
    // The stretches differ in length, so that `done` is no index to count.
    while done < noise.len() {
        let len = (memory.len() - p).min(noise.len() - done);
        let end = done + len;
        stretch(
            &mut memory[p..p + len],
            &noise[done..end],
            &mut output[done..end],
        );
        done = end;
        p = 0;
    }
}

// Writes n samples that are due, after k samples of the call. Where the buffers do not hold them, nothing is changed.
#[tactic(auto, unfolding(crate::specs::DueModel::due_of, crate::specs::DueModel::fits_of), using(crate::proofs::BuffersTest::unchanged))]
fn write_due(
    setting: SamplesPerPulse,
    memory: &mut [f32],
    noise: &[f32],
    output: &mut [f32],
    written: u64,
    samples: usize,
    n: usize,
)
    ensures { record { memory = memory.exit.now; output = output.new } ≡ due_of setting noise.now written samples n (record { memory = memory.entry.now; output = output.old }) }
{
    if memory.len() != setting.memory_len() {
        return;
    }
    let room = noise.len().min(output.len()) / 2;
    if room < samples.saturating_add(n) {
        return;
    }
    let at = 2 * samples;
    let end = at + 2 * n;
    write_all(
        setting,
        memory,
        &noise[at..end],
        &mut output[at..end],
        written,
    );
}

// Adds the reply of the draw at the start of the bytes, given its message but for the reply's bytes, from its first sample on, and writes its record from `at` on. It yields the count in that record, the number of samples added. Other memory, and records with no room, are left as they are.
fn add(
    setting: SamplesPerPulse,
    pending: MessageConfig,
    delays: Delays,
    first: u64,
    prototypes: Filters,
    memory: &mut [f32],
    rest: &[u8],
    records: &mut [u8],
    at: usize,
) -> u16
    ensures { (memory.new ≡ memory_with setting pending delays first rest.now prototypes.entry.mode_s.now prototypes.entry.mode_ac.now memory.old) × (records.new ≡ records_with setting pending delays first rest.now memory.old at records.old) × (result ≡ count_with setting pending delays first rest.now memory.old) }
{
    let kind = draw::byte_at(rest, 8);
    let amplitude = le_read::number::<f32>(rest, 17);
    let c = draw::completed(pending, kind, draw::picks(rest));
    let r = ReplySignal {
        setting,
        prototypes,
        delays,
        config: c,
        amplitude,
    };
    let count = reply_add::add_reply(r, memory, setting.slot_of(first));
    reply_record::put(records, at, c, first, kind, count);
    count
}

pub use run_steps::Stop;

// What a run call hands to the next one.
#[derive(Clone, Copy)]
pub struct State {
    pub written: u64,
    pub total: u64,
    pub time: f64,
    pub latest: f64,
    pub ended: bool,
    pub rates: MessagesPerSecond,
    pub delays: Delays,
    pub distributions: Distributions,
    pub setting: SamplesPerPulse,
}

// Of one call: draws taken, samples written, noise values used, records written, and reply samples added to working memory, in two halves.
#[derive(Clone, Copy)]
pub struct Counts {
    pub taken: usize,
    pub samples: usize,
    pub noise: usize,
    pub records: usize,
    pub added_high: u64,
    pub added_low: u64,
}

// What a run call answers: the state for the next call, the counts, and its stop or refusal.
#[derive(Clone, Copy)]
pub struct Ran {
    pub state: State,
    pub counts: Counts,
    pub answer: Result<Stop, Refusal>,
}

// What is left of buffers of these lengths.
fn left(t: Progress, noise: usize, output: usize, records: usize) -> Room
    requires { Inside t noise output records }
    ensures { result ≡ record { output = output - 2 * t.samples; noise = noise - 2 * t.samples; records = records - 66 * t.records } }
{
    Room {
        output: output - 2 * t.samples,
        noise: noise - 2 * t.samples,
        records: records - RECORD_LEN * t.records,
    }
}

// What comes next in a call.
fn next(s: State, t: Progress, last: MessageConfig, rest: usize, room: Room) -> Plan
    ensures { plan_read result ≡ chosen s.setting t.ended t.written s.total s.delays last rest room.output room.noise room.records }
{
    run_steps::choose(
        s.setting, t.ended, t.written, s.total, s.delays, last, rest, room,
    )
}

// The buffers are passed apart, as C lends them: of a struct of `&mut` slices each contract would have to promise besides that every field is still the same borrow (its `ghost_name`), and the draws that are left change with each step.
// One step: a stop, n samples, or a draw. The count of a reply is known once its samples are added.
fn step(
    s: State,
    t: Progress,
    prototypes: Filters,
    memory: &mut [f32],
    rest: &[u8],
    noise: &[f32],
    output: &mut [f32],
    records: &mut [u8],
) -> Progress
    requires { (length memory.old ≡ working_memory (per_pulse s.setting)) × (Inside t (length noise.now) (length output.old) (length records.old)) × (65 * t.taken + length rest.now < 2 ^ 64) × (s.total < 2 ^ 64) }
    ensures { StepSays (gen_of s prototypes.entry.mode_s.now prototypes.entry.mode_ac.now) noise.now nan result.last (progress_read s prototypes.entry.mode_s.now prototypes.entry.mode_ac.now t memory.old rest.now output.old records.old) (progress_read s prototypes.entry.mode_s.now prototypes.entry.mode_ac.now result memory.new (rest_after result.last rest.now) output.new records.new) }
{
    let last = draw::pending(s.distributions, t.time, rest);
    let room = left(t, noise.len(), output.len(), records.len());
    let p = next(s, t, last, rest.len(), room);
    let r = run_steps::after_step(t, p, 0);
    match p {
        Plan::Halt(_) | Plan::Skip(_) | Plan::End(_) => r,
        Plan::Drain(n) | Plan::Due(n, _) => {
            write_due(s.setting, memory, noise, output, t.written, t.samples, n);
            r
        }
        Plan::Add(_, first) => {
            let count = add(
                s.setting,
                last,
                s.delays,
                first,
                prototypes,
                memory,
                rest,
                records,
                RECORD_LEN * t.records,
            );
            run_steps::after_step(t, p, count)
        }
    }
}

// A call before its first step.
#[tactic(auto, unfolding(crate::specs::CallModel::initial_by))]
fn initial_progress(s: State) -> Progress
    ensures { result ≡ initial_by s }
{
    Progress {
        written: s.written,
        time: s.time,
        latest: s.latest,
        ended: s.ended,
        taken: 0,
        samples: 0,
        records: 0,
        added_high: 0,
        added_low: 0,
        last: LastStep::SamplesWritten,
    }
}

// The answer at a stop.
#[tactic(auto, using(crate::proofs::Halves::stopped_is))]
fn stopped_at(s: State, t: Progress, w: Stop) -> Ran
    requires { 2 * t.samples < 2 ^ 64 }
    ensures { result ≡ ran_by s t w }
{
    Ran {
        state: State {
            written: t.written,
            time: t.time,
            latest: t.latest,
            ended: t.ended,
            ..s
        },
        counts: Counts {
            taken: t.taken,
            samples: t.samples,
            noise: 2 * t.samples,
            records: t.records,
            added_high: t.added_high,
            added_low: t.added_low,
        },
        answer: Ok(w),
    }
}

// The steps of a call, until one stops it. The draw bytes that are not taken are handed on as a part.
#[tactic(auto, using(crate::proofs::Going::tail_is, crate::proofs::Going::samples_written_less, crate::proofs::Going::samples_written_again, crate::proofs::Going::draw_taken_bytes, crate::proofs::Going::draw_taken_less, crate::proofs::Going::draw_taken_again, crate::proofs::Going::stop_reached_samples))]
fn steps(
    s: State,
    prototypes: Filters,
    memory: &mut [f32],
    draws: &[u8],
    noise: &[f32],
    output: &mut [f32],
    records: &mut [u8],
) -> Ran
    requires { length memory.old ≡ working_memory (per_pulse s.setting) }
    ensures { record { ran = result; memory = memory.new; output = output.new; records = records.new } ≡ call_left s prototypes.entry.mode_s.now prototypes.entry.mode_ac.now memory.old draws.now noise.now output.old records.old }
{
    let mut t = initial_progress(s);
    let mut rest = draws;
    loop {
        t = step(s, t, prototypes, memory, rest, noise, output, records);
        match t.last {
            LastStep::SamplesWritten => {}
            LastStep::DrawTaken => {
                rest = &rest[DRAW_LEN..];
            }
            LastStep::StopReached(w) => {
                return stopped_at(s, t, w);
            }
        }
    }
}

#[tactic(auto, unfolding(crate::specs::CallModel::refused_by))]
fn refused(s: State, q: Refusal) -> Ran
    ensures { result ≡ refused_by s q }
{
    Ran {
        state: s,
        counts: Counts {
            taken: 0,
            samples: 0,
            noise: 0,
            records: 0,
            added_high: 0,
            added_low: 0,
        },
        answer: Err(q),
    }
}

// A run call: refused, or its steps until one stops it. A refusal changes neither the state nor any buffer. Inlined, so that a short call spends nothing on passing a state on.
#[inline(always)]
#[tactic(auto, using(crate::proofs::Lengths::right_memory, crate::proofs::Refusing::buffers_refused, crate::proofs::Refusing::draw_refused, crate::proofs::Refusing::noise_refused))]
pub fn run(
    s: State,
    prototypes: Filters,
    memory: &mut [f32],
    draws: &[u8],
    noise: &[f32],
    output: &mut [f32],
    records: &mut [u8],
) -> Ran
    ensures { record { ran = result; memory = memory.new; output = output.new; records = records.new } ≡ run_left s prototypes.entry.mode_s.now prototypes.entry.mode_ac.now memory.old draws.now noise.now output.old records.old }
{
    if lengths_wrong(
        s.setting,
        memory.len(),
        prototypes.mode_s.len(),
        prototypes.mode_ac.len(),
        output.len(),
        draws.len(),
    ) {
        return refused(s, Refusal::Length);
    }
    let fault = check_draws(s.time, s.latest, s.rates, s.distributions, draws);
    if let Some((k, n)) = fault {
        return refused(s, Refusal::Draw(k, n));
    }
    if let Some(p) = check_noise(noise) {
        return refused(s, Refusal::Noise(p));
    }
    steps(s, prototypes, memory, draws, noise, output, records)
}
