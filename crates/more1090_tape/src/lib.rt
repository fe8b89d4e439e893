// A tape under C names: its head, its run fed in chunks of noise, how it ends, and its text.
#![tactic(auto)]

ghost use Rattle.std.specs.Prelude.{◌≡◌, length};
ghost use Rattle.le_read.specs.LeBytes.{overwritten};
ghost use Rattle.more1090_tape.specs.Flat.{head_wanted, tape_flat, feed_from, refused_tape, begun_flat, flat_fed, answered_ending, flat_ending, flat_text, open_left};

use more1090_generator::FlatState;
use pulse_shape::Filters;
use refusals::Refusal;
use run_steps::Stop;
use tape_feed::Feed;
use tape_head::Beginning;
use tape_sections::TAPS_COUNT_OFFSET;
use tape_text::TEXT_LEN;

// A tape's run between two chunks of noise: its state, the draws taken, the records written, and what the last call answered. Refusal 0 is none, stop 5 is none. Each field has 8 bytes, so that there is no padding.
#[repr(C)]
#[derive(Clone, Copy)]
pub struct FlatTape {
    pub state: FlatState,
    pub taken: u64,
    pub records: u64,
    pub stop: u64,
    pub refusal: u64,
    pub value: u64,
    pub field: u64,
}

// What a tape begins with: its run, where its draws stand, how many they are, and the count of noise values behind them.
#[repr(C)]
#[derive(Clone, Copy)]
pub struct FlatBeginning {
    pub tape: FlatTape,
    pub draws_at: u64,
    pub draws: u64,
    pub noise: u64,
}

// How a tape ends: its records and samples; or a refusal, with the samples written before it.
#[repr(C)]
#[derive(Clone, Copy)]
pub struct FlatEnding {
    pub refusal: u64,
    pub value: u64,
    pub field: u64,
    pub records: u64,
    pub samples: u64,
}

// A run with a refusal's number and values, or with a stop beside 0.
#[tactic(auto, unfolding(crate::specs::Flat::tape_flat, crate::specs::Flat::tape_then, crate::specs::Flat::tape_of))]
fn tape_out(f: Feed) -> FlatTape
    ensures { result ≡ tape_flat f }
{
    let given = FlatTape {
        state: more1090_generator::state_out(f.state),
        taken: f.taken as u64,
        records: f.records as u64,
        stop: 5,
        refusal: 0,
        value: 0,
        field: 0,
    };
    match f.answer {
        Ok(w) => FlatTape {
            stop: more1090_generator::stop_number(w),
            ..given
        },
        Err(q) => {
            let v = refusals::values_of(q);
            FlatTape {
                refusal: q.number(),
                value: v.value,
                field: v.field,
                ..given
            }
        }
    }
}

// A run that was not refused: a call does not look at the stop before it.
#[tactic(auto, unfolding(crate::specs::Flat::feed_from))]
fn feed_in(t: FlatTape) -> Feed
    ensures { result ≡ feed_from t }
{
    Feed {
        state: more1090_generator::state_in(t.state),
        taken: t.taken as usize,
        records: t.records as usize,
        answer: Ok(Stop::WantsNoise),
    }
}

// What stands for a run whose tape is refused before its noise.
#[tactic(auto, unfolding(crate::specs::Flat::refused_tape))]
fn refused_tape(q: Refusal) -> FlatTape
    ensures { result ≡ refused_tape q }
{
    let v = refusals::values_of(q);
    FlatTape {
        state: more1090_generator::no_state(),
        taken: 0,
        records: 0,
        stop: 5,
        refusal: q.number(),
        value: v.value,
        field: v.field,
    }
}

#[tactic(auto, unfolding(crate::specs::Flat::begun_flat))]
fn beginning_out(b: Result<Beginning, Refusal>) -> FlatBeginning
    ensures { result ≡ begun_flat b }
{
    match b {
        Ok(b) => FlatBeginning {
            tape: tape_out(tape_feed::start(b.state)),
            draws_at: tape_sections::draws_count_offset(b.state.setting) as u64 + 4,
            draws: b.draws,
            noise: b.noise,
        },
        Err(q) => FlatBeginning {
            tape: refused_tape(q),
            draws_at: 0,
            draws: 0,
            noise: 0,
        },
    }
}

// How many bytes of a tape stand before its noise, as far as the first ones say. A caller reads on until it has so many, or the tape ends.
#[tactic(auto, unfolding(crate::specs::Flat::head_wanted))]
#[unsafe(no_mangle)]
pub extern "C" fn more1090_tape_head_length(first: &[u8]) -> u64
    ensures { result ≡ head_wanted first.now }
{
    if first.len() < TAPS_COUNT_OFFSET {
        return TAPS_COUNT_OFFSET as u64;
    }
    let counted = tape_sections::draws_count_offset(tape_sections::tape_setting(first)) + 4;
    if first.len() < counted {
        return counted as u64;
    }
    tape_sections::head_length(first) as u64
}

// Opens the run of a tape, of which all before its noise is passed. Refused, it changes no buffer.
#[tactic(auto, unfolding(crate::specs::Flat::open_left))]
#[unsafe(no_mangle)]
pub extern "C" fn more1090_tape_open(
    head: &[u8],
    mode_s: &mut [f32],
    mode_ac: &mut [f32],
    memory: &mut [f32],
) -> FlatBeginning
    ensures { record { beginning = result; left = record { mode_s = mode_s.new; mode_ac = mode_ac.new; memory = memory.new } } ≡ open_left head.now (record { mode_s = mode_s.old; mode_ac = mode_ac.old; memory = memory.old }) }
{
    beginning_out(tape_head::head(head, mode_s, mode_ac, memory))
}

// Feeds the run a chunk of noise, given the whole draws and records of its tape. A run that is refused stays as it is.
#[tactic(auto, unfolding(crate::specs::Flat::flat_fed))]
#[unsafe(no_mangle)]
pub extern "C" fn more1090_tape_feed(
    tape: FlatTape,
    mode_s: &[f32],
    mode_ac: &[f32],
    memory: &mut [f32],
    draws: &[u8],
    noise: &[f32],
    output: &mut [f32],
    records: &mut [u8],
) -> FlatTape
    ensures { record { tape = result; memory = memory.new; output = output.new; records = records.new } ≡ flat_fed mode_s.now mode_ac.now draws.now noise.now (record { tape = tape; memory = memory.old; output = output.old; records = records.old }) }
{
    if tape.refusal != 0 {
        return tape;
    }
    let prototypes = Filters { mode_s, mode_ac };
    tape_out(tape_feed::feed_noise(
        feed_in(tape),
        prototypes,
        memory,
        draws,
        noise,
        output,
        records,
    ))
}

#[tactic(auto, unfolding(crate::specs::Flat::refused_ending))]
fn refused_ending(tape: FlatTape, refusal: u64, value: u64, field: u64) -> FlatEnding
    ensures { result ≡ Rattle.more1090_tape.specs.Flat.refused_ending tape refusal value field }
{
    FlatEnding {
        refusal,
        value,
        field,
        records: 0,
        samples: tape.state.written,
    }
}

// Of a run that was fed all its noise, with or without bytes left over.
#[tactic(auto, unfolding(crate::specs::Flat::answered_ending, crate::specs::Flat::done_ending))]
fn answered_ending(tape: FlatTape, left_over: bool) -> FlatEnding
    ensures { result ≡ answered_ending tape left_over }
{
    if tape.refusal != 0 {
        return refused_ending(tape, tape.refusal, tape.value, tape.field);
    }
    if tape.stop != 0 || left_over {
        return refused_ending(tape, Refusal::Tape.number(), 0, 0);
    }
    FlatEnding {
        refusal: 0,
        value: 0,
        field: 0,
        records: tape.records,
        samples: tape.state.written,
    }
}

// How a tape ends, by how its noise section did: 0 with all its values fed and no bytes behind them, 1 with bytes left over, any other number with fewer values than its count says.
#[tactic(auto, unfolding(crate::specs::Flat::flat_ending))]
#[unsafe(no_mangle)]
pub extern "C" fn more1090_tape_ending(tape: FlatTape, end: u64) -> FlatEnding
    ensures { result ≡ flat_ending tape end }
{
    match end {
        0 => answered_ending(tape, false),
        1 => answered_ending(tape, true),
        _ => refused_ending(tape, Refusal::Tape.number(), 0, 0),
    }
}

// What is printed of a tape that ends so, with the records of its run; its length.
#[tactic(auto, unfolding(crate::specs::Flat::flat_text))]
#[unsafe(no_mangle)]
pub extern "C" fn more1090_tape_text(
    ending: FlatEnding,
    records: &[u8],
    text: &mut [u8; TEXT_LEN],
) -> u64
    ensures { (result ≡ length (flat_text ending records.now)) × (text.new ≡ overwritten text.old 0 (flat_text ending records.now)) }
{
    if ending.refusal != 0 {
        return tape_text::refused_text(ending.refusal, text) as u64;
    }
    tape_text::run_text(records, ending.samples, text) as u64
}
