// Opening a run and run calls under C names: the state, the answers and the refusals as plain numbers.
#![tactic(auto)]

ghost use Rattle.std.specs.Prelude.{◌≡◌};
ghost use Rattle.run_open.specs.Opening.{opened_of, left_by};
ghost use Rattle.more1090_generator.specs.States.{carrier_flat, phase_flat, clock_flat, carrier_from, phase_from, clock_from, flat_of, state_from, no_state};
ghost use Rattle.run_call.specs.Given.{stop_number};
ghost use Rattle.more1090_generator.specs.Answers.{opened_flat, answered, ran_flat, flat_run_left};

use constants::SamplesPerPulse;
use distributions::{CarrierOffset, CarrierPhase, ClockError};
use message_config::Delays;
use pulse_shape::Filters;
use refusals::Refusal;
use run_call::{Counts, Ran, State, Stop};
use settings::{Distributions, MessagesPerSecond};

// A distribution: its kind as the settings have it, and two numbers.
#[repr(C)]
#[derive(Clone, Copy)]
pub struct FlatDistribution {
    pub kind: u64,
    pub first: f64,
    pub second: f64,
}

#[repr(C)]
#[derive(Clone, Copy)]
pub struct FlatRates {
    pub extended_squitter: f64,
    pub acquisition_squitter: f64,
    pub short_ap: f64,
    pub all_call_reply: f64,
    pub long_ap: f64,
    pub military_extended_squitter: f64,
    pub mode_ac: f64,
}

// A run between two calls. Each field has 8 bytes, so that there is no padding.
#[repr(C)]
#[derive(Clone, Copy)]
pub struct FlatState {
    pub written: u64,
    pub total: u64,
    pub time: f64,
    pub latest: f64,
    pub rates: FlatRates,
    pub mode_s_delay: f64,
    pub mode_ac_delay: f64,
    pub carrier: FlatDistribution,
    pub phase: FlatDistribution,
    pub clock: FlatDistribution,
    pub ended: u64,
    pub samples_per_pulse: u64,
}

// What opening answers: refusal 0 is none.
#[repr(C)]
#[derive(Clone, Copy)]
pub struct FlatOpened {
    pub state: FlatState,
    pub refusal: u64,
    pub value: u64,
}

// What a run call answers beside its state, in C's numbers: refusal 0 is none, stop 5 is none.
#[repr(C)]
#[derive(Clone, Copy)]
pub struct FlatAnswer {
    pub taken: u64,
    pub samples: u64,
    pub noise: u64,
    pub records: u64,
    pub stop: u64,
    pub refusal: u64,
    pub value: u64,
    pub field: u64,
    pub added_high: u64,
    pub added_low: u64,
}

#[repr(C)]
#[derive(Clone, Copy)]
pub struct FlatRan {
    pub state: FlatState,
    pub answer: FlatAnswer,
}

// The conversions are functions and no `From`: an impl for each pair of types, with a ghost member that says the same definition, is no plainer.
#[tactic(auto, unfolding(crate::specs::States::carrier_flat, crate::specs::States::distribution_of))]
fn carrier_out(d: CarrierOffset) -> FlatDistribution
    ensures { result ≡ carrier_flat d }
{
    match d {
        CarrierOffset::Constant(x) => FlatDistribution {
            kind: 0,
            first: x,
            second: 0.0,
        },
        CarrierOffset::ClampedNormal(sigma, max) => FlatDistribution {
            kind: 1,
            first: sigma,
            second: max,
        },
    }
}

#[tactic(auto, unfolding(crate::specs::States::phase_flat, crate::specs::States::distribution_of))]
fn phase_out(d: CarrierPhase) -> FlatDistribution
    ensures { result ≡ phase_flat d }
{
    match d {
        CarrierPhase::Constant(x) => FlatDistribution {
            kind: 0,
            first: x,
            second: 0.0,
        },
        CarrierPhase::Uniform => FlatDistribution {
            kind: 1,
            first: 0.0,
            second: 0.0,
        },
    }
}

#[tactic(auto, unfolding(crate::specs::States::clock_flat, crate::specs::States::distribution_of))]
fn clock_out(d: ClockError) -> FlatDistribution
    ensures { result ≡ clock_flat d }
{
    match d {
        ClockError::Constant(x) => FlatDistribution {
            kind: 0,
            first: x,
            second: 0.0,
        },
        ClockError::Uniform(max) => FlatDistribution {
            kind: 1,
            first: max,
            second: 0.0,
        },
    }
}

// Kind 0 is constant, any other the other.
#[tactic(auto, unfolding(crate::specs::States::carrier_from))]
fn carrier_in(f: FlatDistribution) -> CarrierOffset
    ensures { result ≡ carrier_from f }
{
    if f.kind == 0 {
        CarrierOffset::Constant(f.first)
    } else {
        CarrierOffset::ClampedNormal(f.first, f.second)
    }
}

#[tactic(auto, unfolding(crate::specs::States::phase_from))]
fn phase_in(f: FlatDistribution) -> CarrierPhase
    ensures { result ≡ phase_from f }
{
    if f.kind == 0 {
        CarrierPhase::Constant(f.first)
    } else {
        CarrierPhase::Uniform
    }
}

#[tactic(auto, unfolding(crate::specs::States::clock_from))]
fn clock_in(f: FlatDistribution) -> ClockError
    ensures { result ≡ clock_from f }
{
    if f.kind == 0 {
        ClockError::Constant(f.first)
    } else {
        ClockError::Uniform(f.first)
    }
}

#[tactic(auto, unfolding(crate::specs::States::flat_of, crate::specs::States::rates_flat))]
pub fn state_out(s: State) -> FlatState
    ensures { result ≡ flat_of s }
{
    FlatState {
        written: s.written,
        total: s.total,
        time: s.time,
        latest: s.latest,
        rates: FlatRates {
            extended_squitter: s.rates.extended_squitter,
            acquisition_squitter: s.rates.acquisition_squitter,
            short_ap: s.rates.short_ap,
            all_call_reply: s.rates.all_call_reply,
            long_ap: s.rates.long_ap,
            military_extended_squitter: s.rates.military_extended_squitter,
            mode_ac: s.rates.mode_ac,
        },
        mode_s_delay: s.delays.mode_s,
        mode_ac_delay: s.delays.mode_ac,
        carrier: carrier_out(s.distributions.carrier),
        phase: phase_out(s.distributions.phase),
        clock: clock_out(s.distributions.clock),
        ended: u64::from(s.ended),
        samples_per_pulse: s.setting.number(),
    }
}

#[tactic(auto, unfolding(crate::specs::States::state_from, crate::specs::States::rates_from))]
pub fn state_in(f: FlatState) -> State
    ensures { result ≡ state_from f }
{
    State {
        written: f.written,
        total: f.total,
        time: f.time,
        latest: f.latest,
        ended: f.ended != 0,
        rates: MessagesPerSecond {
            extended_squitter: f.rates.extended_squitter,
            acquisition_squitter: f.rates.acquisition_squitter,
            short_ap: f.rates.short_ap,
            all_call_reply: f.rates.all_call_reply,
            long_ap: f.rates.long_ap,
            military_extended_squitter: f.rates.military_extended_squitter,
            mode_ac: f.rates.mode_ac,
        },
        delays: Delays {
            mode_s: f.mode_s_delay,
            mode_ac: f.mode_ac_delay,
        },
        distributions: Distributions {
            carrier: carrier_in(f.carrier),
            phase: phase_in(f.phase),
            clock: clock_in(f.clock),
        },
        setting: SamplesPerPulse::from_number(f.samples_per_pulse),
    }
}

// What a refused opening says as its state.
#[tactic(auto, unfolding(crate::specs::States::no_state, crate::specs::States::no_rates, crate::specs::States::distribution_of))]
pub fn no_state() -> FlatState
    ensures { result ≡ no_state }
{
    let none = FlatDistribution {
        kind: 0,
        first: 0.0,
        second: 0.0,
    };
    FlatState {
        written: 0,
        total: 0,
        time: 0.0,
        latest: 0.0,
        rates: FlatRates {
            extended_squitter: 0.0,
            acquisition_squitter: 0.0,
            short_ap: 0.0,
            all_call_reply: 0.0,
            long_ap: 0.0,
            military_extended_squitter: 0.0,
            mode_ac: 0.0,
        },
        mode_s_delay: 0.0,
        mode_ac_delay: 0.0,
        carrier: none,
        phase: none,
        clock: none,
        ended: 0,
        samples_per_pulse: 0,
    }
}

#[tactic(auto, unfolding(crate::specs::Answers::opened_flat))]
fn opened_out(o: Result<State, Refusal>) -> FlatOpened
    ensures { result ≡ opened_flat o }
{
    match o {
        Ok(s) => FlatOpened {
            state: state_out(s),
            refusal: 0,
            value: 0,
        },
        Err(q) => {
            let v = refusals::values_of(q);
            FlatOpened {
                state: no_state(),
                refusal: q.number(),
                value: v.value,
            }
        }
    }
}

#[tactic(auto, unfolding(run_call::specs::Given::stop_number, run_steps::specs::PlanModel::stop_read))]
pub fn stop_number(w: Stop) -> u64
    ensures { result ≡ stop_number w }
{
    w as u64
}

// The four numbers behind the counts stand apart, as in the struct that C has.
#[tactic(auto, unfolding(crate::specs::Answers::flat_answer))]
fn flat_answer(n: Counts, stop: u64, refusal: u64, value: u64, field: u64) -> FlatAnswer
    ensures { result ≡ Rattle.more1090_generator.specs.Answers.flat_answer n stop refusal value field }
{
    FlatAnswer {
        taken: n.taken as u64,
        samples: n.samples as u64,
        noise: n.noise as u64,
        records: n.records as u64,
        stop,
        refusal,
        value,
        field,
        added_high: n.added_high,
        added_low: n.added_low,
    }
}

#[tactic(auto, unfolding(crate::specs::Answers::answered))]
fn answer_out(n: Counts, answer: Result<Stop, Refusal>) -> FlatAnswer
    ensures { result ≡ answered n answer }
{
    match answer {
        Ok(w) => flat_answer(n, stop_number(w), 0, 0, 0),
        Err(q) => {
            let v = refusals::values_of(q);
            flat_answer(n, 5, q.number(), v.value, v.field)
        }
    }
}

#[tactic(auto, unfolding(crate::specs::Answers::ran_flat))]
fn ran_out(ran: Ran) -> FlatRan
    ensures { result ≡ ran_flat ran }
{
    FlatRan {
        state: state_out(ran.state),
        answer: answer_out(ran.counts, ran.answer),
    }
}

// Opens a run; refused, it changes no buffer, and the state is all zero.
#[unsafe(no_mangle)]
pub extern "C" fn more1090_open(
    settings: &[u8],
    taps_s: &[f32],
    taps_ac: &[f32],
    mode_s: &mut [f32],
    mode_ac: &mut [f32],
    memory: &mut [f32],
) -> FlatOpened
    ensures { (result ≡ opened_flat (opened_of taps_s.now taps_ac.now settings.now (record { mode_s = mode_s.old; mode_ac = mode_ac.old; memory = memory.old }))) × (record { mode_s = mode_s.new; mode_ac = mode_ac.new; memory = memory.new } ≡ left_by taps_s.now taps_ac.now (opened_of taps_s.now taps_ac.now settings.now (record { mode_s = mode_s.old; mode_ac = mode_ac.old; memory = memory.old })) (record { mode_s = mode_s.old; mode_ac = mode_ac.old; memory = memory.old })) }
{
    let taps = Filters {
        mode_s: taps_s,
        mode_ac: taps_ac,
    };
    opened_out(run_open::open(settings, taps, mode_s, mode_ac, memory))
}

// A run call on a state that a call returned, or on any other numbers.
#[tactic(auto, unfolding(crate::specs::Answers::flat_run_left, crate::specs::Answers::left_flat))]
#[unsafe(no_mangle)]
pub extern "C" fn more1090_run(
    state: FlatState,
    mode_s: &[f32],
    mode_ac: &[f32],
    memory: &mut [f32],
    draws: &[u8],
    noise: &[f32],
    output: &mut [f32],
    records: &mut [u8],
) -> FlatRan
    ensures { record { ran = result; memory = memory.new; output = output.new; records = records.new } ≡ flat_run_left state mode_s.now mode_ac.now memory.old draws.now noise.now output.old records.old }
{
    let s = state_in(state);
    let prototypes = Filters { mode_s, mode_ac };
    ran_out(run_call::run(s, prototypes, memory, draws, noise, output, records))
}
