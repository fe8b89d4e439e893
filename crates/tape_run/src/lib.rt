// A tape on standard input, run to its end: its bytes before the noise; its noise, fed to its run in chunks; its samples on standard output where they are asked for (cf32: interleaved little-endian f32); and what is reported of it.
// What is read and written is not stated, since it is not known; that the noise is cut as tape_theory/specs/PlainTape asks, and that what is reported is right for some tape, is.
#![tactic(auto)]

ghost use Rattle.std.specs.Prelude.{◌≡◌, ◌≤◌, ◌<◌, length, take, false};
ghost use Rattle.io.specs.Counts.{IsPrefixLen};
ghost use Rattle.tape_theory.specs.PlainTape.{FedCut};
ghost use Rattle.tape_feed.specs.Verdict.{is_cut_short};
ghost use Rattle.tape_theory.specs.Reported.{Reported, records_lent, records_left, records_in};

use constants::{DRAW_LEN, MAX_MEMORY_LEN, MAX_PROTOTYPE_LEN, SamplesPerPulse};
use pulse_shape::Filters;
use run_call::State;
use std::io::{Error, Stdout, Write};
use tape_feed::{Feed, Outcome, SectionEnd};
use tape_sections::{
    CHUNK_BYTES, CHUNK_LEN, CHUNK_OUTPUT_LEN, CHUNK_VALUES, LONGEST_HEAD_LEN, MAX_RECORDS_LEN,
    STDERR_FILENO, STDIN_FILENO, TAPS_COUNT_OFFSET,
};

// A part of known length; no byte is counted where there were fewer, or where there is no room for them.
fn read_whole(size: usize, bytes: &mut [u8]) -> usize
    ensures { (result ≤ length bytes.new) × (result ≤ size) × (result < size → result ≡ 0) }
{
    if bytes.len() < size {
        return 0;
    }
    let got = io::read_full(STDIN_FILENO, &mut bytes[..size]);
    if got < size { 0 } else { size }
}

// Noise values, all that are wanted or none, by their count, which is where a slice of them ends: none where there were fewer, where there is no room for them, and where more than 16,384 are wanted at once.
fn read_values(want: usize, row: &mut [f32]) -> usize
    ensures { (result ≤ length row.new) × (result ≤ want) × (result < want → result ≡ 0) }
{
    if row.len() < want || CHUNK_LEN < want {
        return 0;
    }
    let mut bytes = [0u8; CHUNK_BYTES];
    let size = read_whole(4 * want, &mut bytes);
    tape_sections::floats(&bytes[..size], row)
}

// Reads on behind n bytes of a tape, which it leaves, up to `want`; how many there are then.
fn read_on(bytes: &mut [u8], n: usize, want: usize) -> usize
    requires { (n ≤ want) × (want ≤ length bytes.old) }
    ensures prefix_len { IsPrefixLen result bytes.new }
    ensures kept { take n bytes.new ≡ take n bytes.old }
{
    n + io::read_full(STDIN_FILENO, &mut bytes[n..want])
}

// The bytes of a tape up to its noise, 50,140 at most; how many there are. None are read where there is no room for 50,140. They are read in three parts, since the settings' last byte says how many the taps are, and the draws' count says how many the draws are.
fn read_head(bytes: &mut [u8]) -> usize
    ensures { IsPrefixLen result bytes.new }
{
    if bytes.len() < LONGEST_HEAD_LEN {
        return 0;
    }
    let settings = read_on(bytes, 0, TAPS_COUNT_OFFSET);
    if settings < TAPS_COUNT_OFFSET {
        return settings;
    }
    let setting = tape_sections::tape_setting(bytes);
    let counted = tape_sections::draws_count_offset(setting) + 4;
    let taps = read_on(bytes, TAPS_COUNT_OFFSET, counted);
    if taps < counted {
        return taps;
    }
    let want = tape_sections::head_length(&bytes[..counted]);
    read_on(bytes, counted, want)
}

// A line on standard error for each second of signal.
fn progress(setting: SamplesPerPulse, before: u64, after: u64) {
    let second = after / setting.sample_rate();
    if before / setting.sample_rate() < second {
        io::write_all(STDERR_FILENO, b"second ");
        io::print_decimal(STDERR_FILENO, second);
        io::write_all(STDERR_FILENO, b", samples ");
        io::print_decimal(STDERR_FILENO, after);
        io::write_all(STDERR_FILENO, b"\n");
    }
}

// How a section ends whose values are all fed: whether bytes are left over behind it.
#[tactic(auto, unfolding(tape_feed::specs::Verdict::is_cut_short))]
fn end_of_whole() -> SectionEnd
    ensures { is_cut_short result ≡ false }
{
    let mut b = [0u8; 1];
    if io::read_full(STDIN_FILENO, &mut b) == 0 {
        SectionEnd::Whole
    } else {
        SectionEnd::LeftOver
    }
}

// The samples that a call wrote, from one number of samples to the next.
fn write_samples(mut stdout: Stdout, before: u64, now: State, output: &[f32]) -> Result<(), Error> {
    let after = now.written;
    let k = after.saturating_sub(before).min(8193) as usize;
    let n = output.len().min(2 * k);
    let mut out = [0u8; 65544];
    tape_sections::float_bytes(&output[..n], &mut out);
    stdout.write_all(&out[..4 * n])?;
    progress(now.setting, before, after);
    Ok(())
}

// Where there is an output for samples, they are written.
fn put_samples(to: Option<Stdout>, before: u64, now: State, output: &[f32]) -> Result<(), Error> {
    match to {
        Some(stdout) => write_samples(stdout, before, now, output),
        None => Ok(()),
    }
}

// A run after its noise section, and how the section ended.
#[derive(Clone, Copy)]
struct Section {
    pub feed: Feed,
    pub end: SectionEnd,
}

// A noise section of count values, in chunks of up to 16,384; first none, so that a run of no samples is done. Of a
// chunk that is not whole nothing is fed, and once the section is cut short no more is read. Samples go to the output that is given, if any.
// Memory and records are passed apart, for the reason given beside `run_call::step`.
fn feed_section(
    first: Feed,
    count: u64,
    draws: &[u8],
    prototypes: Filters,
    memory: &mut [f32],
    records: &mut [u8],
    to: Option<Stdout>,
) -> Section
    ensures { FedCut prototypes.entry.mode_s.now prototypes.entry.mode_ac.now draws.now count (record { feed = first; memory = memory.old; records = records.old }) (is_cut_short result.end) (record { feed = result.feed; memory = memory.new; records = records.new }) }
{
    let mut f = first;
    let mut left = count;
    let mut want: u64 = 0;
    loop {
        let mut row = [0.0f32; CHUNK_LEN];
        let mut out = [0.0f32; CHUNK_OUTPUT_LEN];
        let n = read_values(want as usize, &mut row);
        let before = f.state.written;
        f = tape_feed::feed_noise(f, prototypes, memory, draws, &row[..n], &mut out, records);
        if let Err(e) = put_samples(to, before, f.state, &out) {
            let end = SectionEnd::Untaken(e);
            return Section { feed: f, end };
        }
        if (n as u64) < want {
            let end = SectionEnd::Short;
            return Section { feed: f, end };
        }
        left = left.saturating_sub(want);
        want = left.min(CHUNK_VALUES);
        if want == 0 {
            let end = end_of_whole();
            return Section { feed: f, end };
        }
    }
}

// A copy of the bytes given for records: a run that is not done leaves those as they were. A function, since an array passed by value tells a proof its length.
fn copied(bytes: [u8; MAX_RECORDS_LEN]) -> [u8; MAX_RECORDS_LEN]
    ensures { (result ≡ bytes) × (records_lent ≡ length result) }
{
    bytes
}

// The records of a run that is done go into the bytes given for them.
#[tactic(auto, unfolding(tape_theory::specs::Reported::records_left))]
fn keep(outcome: Outcome, own: [u8; MAX_RECORDS_LEN], records: &mut [u8; MAX_RECORDS_LEN])
    ensures { records.new ≡ records_left outcome own records.old }
{
    if tape_feed::is_done(outcome) {
        *records = own;
    }
}

// Runs the tape. Of a run that is done the records stand at the start of the bytes given for them; on a refusal, and where the samples are not taken, those bytes are as they were. Of 400 draws at most come 400 records at most.
pub fn run_tape(records: &mut [u8; MAX_RECORDS_LEN], to: Option<Stdout>) -> Outcome
    ensures reported { Reported result records.old records.new }
    ensures few { records_in result ≤ 400 }
{
    let mut bytes = [0u8; LONGEST_HEAD_LEN];
    let got = read_head(&mut bytes);
    let tape = &bytes[..got];
    let setting = tape_sections::tape_setting(tape);
    let mut whole_s = [0.0f32; MAX_PROTOTYPE_LEN];
    let mut whole_ac = [0.0f32; MAX_PROTOTYPE_LEN];
    let mut whole_memory = [0.0f32; MAX_MEMORY_LEN];
    let mode_s = &mut whole_s[..setting.prototype_len()];
    let mode_ac = &mut whole_ac[..setting.prototype_len()];
    let memory = &mut whole_memory[..setting.memory_len()];
    match tape_head::head(tape, mode_s, mode_ac, memory) {
        Err(q) => Outcome::Refused(q, 0),
        Ok(b) => {
            let at = tape_sections::draws_count_offset(setting) + 4;
            let draws = &tape[at..at + DRAW_LEN * b.draws as usize];
            let f = tape_feed::start(b.state);
            let mut own = copied(*records);
            let prototypes = Filters { mode_s, mode_ac };
            let s = feed_section(f, b.noise, draws, prototypes, memory, &mut own, to);
            let outcome = tape_feed::reported(s.end, s.feed);
            keep(outcome, own, records);
            outcome
        }
    }
}

// A line on standard error: what failed, as the caller names it, a colon and the system's words for why.
pub fn fail(rt: &(impl Eprint + Alloc), what: &str, error: &Error) {
    let _ = match format!(in rt.alloc(); "{error}") {
        Ok(text) => eprintln!(rt; "{what}: {}", words(text.as_str())),
        Err(_) => eprintln!(rt; "{what}: {error}"),
    };
}

// The system's words, without the number that std puts behind them in brackets.
fn words(text: &str) -> &str {
    match text.split_once(" (os error ") {
        Some((said, _)) => said,
        None => text,
    }
}
