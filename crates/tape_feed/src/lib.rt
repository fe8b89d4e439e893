// The run of a tape, fed its noise chunk by chunk: how it begins, a chunk fed, the verdict on it, and what is reported of it. Each public function is equal to a definition of specs/ on every input.
#![tactic(auto)]

ghost use Rattle.std.specs.Prelude.{◌≡◌, ◌*◌, min};
ghost use Rattle.tape_feed.specs.Verdict.{start_of, verdict_of, is_cut_short, is_left_over, judged_of, outcome_of, outcome_done};
ghost use Rattle.tape_feed.specs.FeedModel.{feed_after, called_of, fed_of};

use constants::{DRAW_LEN, RECORD_LEN};
use pulse_shape::Filters;
use refusals::Refusal;
use run_call::{Ran, State};
use run_steps::Stop;
use std::io::Error;

// A run so far: its state, the draws taken, the records written, and what its last call answered.
#[derive(Clone, Copy)]
pub struct Feed {
    pub state: State,
    pub taken: usize,
    pub records: usize,
    pub answer: Result<Stop, Refusal>,
}

// How a noise section ended: with all its values fed, and no bytes behind it or bytes left over; cut short, since there were fewer values; or cut short since its samples were not taken, and why not.
#[derive(Clone, Copy)]
pub enum SectionEnd {
    Whole,
    LeftOver,
    Short,
    Untaken(Error),
}

// What is reported of a tape: that its run is done, with its records and its samples; its refusal, with the samples written before it; or why its samples were not taken.
// Three outcomes with what each reports, and no `Result`: a caller handles each by itself and passes none up.
#[derive(Clone, Copy)]
pub enum Outcome {
    Done(usize, u64),
    Refused(Refusal, u64),
    Untaken(Error),
}

// A run that nothing has been fed.
#[tactic(auto, unfolding(crate::specs::Verdict::start_of))]
pub fn start(state: State) -> Feed
    ensures { result ≡ start_of state }
{
    Feed {
        state,
        taken: 0,
        records: 0,
        answer: Ok(Stop::WantsNoise),
    }
}

// The verdict on a tape whose noise is read: a short section, a noise value at fault, a run not Done, bytes left over.
#[tactic(auto, unfolding(crate::specs::Verdict::verdict_of, crate::specs::Verdict::answer_then, crate::specs::Verdict::stop_then, crate::specs::Verdict::is_cut_short, crate::specs::Verdict::is_left_over))]
fn verdict(end: SectionEnd, answer: Result<Stop, Refusal>) -> Result<(), Refusal>
    ensures { result ≡ verdict_of (is_cut_short end) answer (is_left_over end) }
{
    match (end, answer) {
        (SectionEnd::Short | SectionEnd::Untaken(_), _) => Err(Refusal::Tape),
        (SectionEnd::Whole | SectionEnd::LeftOver, Err(q)) => Err(q),
        (SectionEnd::Whole, Ok(Stop::Done)) => Ok(()),
        (SectionEnd::Whole | SectionEnd::LeftOver, Ok(_)) => Err(Refusal::Tape),
    }
}

// What is reported of a run by its verdict.
#[tactic(auto, unfolding(crate::specs::Verdict::judged_of))]
fn judged(verdict: Result<(), Refusal>, f: Feed) -> Outcome
    ensures { result ≡ judged_of verdict f }
{
    match verdict {
        Ok(()) => Outcome::Done(f.records, f.state.written),
        Err(q) => Outcome::Refused(q, f.state.written),
    }
}

// What is reported of a tape whose noise is read, or whose samples are not taken.
#[tactic(auto, unfolding(crate::specs::Verdict::outcome_of, crate::specs::Verdict::is_cut_short, crate::specs::Verdict::is_left_over))]
pub fn reported(end: SectionEnd, f: Feed) -> Outcome
    ensures { result ≡ outcome_of end f }
{
    match end {
        SectionEnd::Untaken(e) => Outcome::Untaken(e),
        SectionEnd::Whole | SectionEnd::LeftOver | SectionEnd::Short => {
            let v = verdict(end, f.answer);
            judged(v, f)
        }
    }
}

// Whether a run is done: the records of any other are not handed out.
#[tactic(auto, unfolding(crate::specs::Verdict::outcome_done))]
pub fn is_done(o: Outcome) -> bool
    ensures { result ≡ outcome_done o }
{
    matches!(o, Outcome::Done(_, _))
}

// Where k entries of a size end, within a length.
fn place(k: usize, size: usize, length: usize) -> usize
    ensures { result ≡ min (size * k) length }
{
    size.saturating_mul(k).min(length)
}

// The run after a call.
#[tactic(auto, unfolding(crate::specs::FeedModel::feed_after))]
fn after(f: Feed, r: Ran) -> Feed
    ensures { result ≡ feed_after f r }
{
    Feed {
        state: r.state,
        taken: f.taken.wrapping_add(r.counts.taken),
        records: f.records.wrapping_add(r.counts.records),
        answer: r.answer,
    }
}

// One run call on a chunk of noise, given the draws that are not taken and the room behind the records.
fn call(
    f: Feed,
    prototypes: Filters,
    memory: &mut [f32],
    draws: &[u8],
    noise: &[f32],
    output: &mut [f32],
    records: &mut [u8],
) -> Feed
    ensures { record { feed = result; memory = memory.new; output = output.new; records = records.new } ≡ called_of prototypes.entry.mode_s.now prototypes.entry.mode_ac.now draws.now noise.now (record { feed = f; memory = memory.old; output = output.old; records = records.old }) }
{
    let a = place(f.taken, DRAW_LEN, draws.len());
    let b = place(f.records, RECORD_LEN, records.len());
    let r = run_call::run(
        f.state,
        prototypes,
        memory,
        &draws[a..],
        noise,
        output,
        &mut records[b..],
    );
    after(f, r)
}

// The run after a chunk of noise; once refused, it stays as it is.
// Memory, output and records are passed apart, for the reason given beside `run_call::step`.
#[tactic(auto, unfolding(crate::specs::FeedModel::fed_of, crate::specs::FeedModel::fed_then))]
pub fn feed_noise(
    f: Feed,
    prototypes: Filters,
    memory: &mut [f32],
    draws: &[u8],
    noise: &[f32],
    output: &mut [f32],
    records: &mut [u8],
) -> Feed
    ensures { record { feed = result; memory = memory.new; output = output.new; records = records.new } ≡ fed_of prototypes.entry.mode_s.now prototypes.entry.mode_ac.now draws.now noise.now (record { feed = f; memory = memory.old; output = output.old; records = records.old }) }
{
    match f.answer {
        Err(_) => f,
        Ok(_) => call(f, prototypes, memory, draws, noise, output, records),
    }
}
