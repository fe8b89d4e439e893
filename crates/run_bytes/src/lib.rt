// A whole run as bytes, and read back (SPECIFICATION 16): state, prototypes, working memory, and a rack with its memory where there is one.
#![tactic(auto)]

ghost use Rattle.std.specs.Prelude.{◌≡◌, ◌≤◌, ◌<◌, ◌+◌, ◌-◌, ◌*◌, Option, Some, is_some, IfOk, true, cond, [], ◌∷◌, length, take, drop, get_or};
ghost use Rattle.constants.specs.Setting.{setting_from};
ghost use Rattle.le_read.specs.LeBytes.{overwritten};
ghost use Rattle.rack.specs.Feeds.{memory_length};
ghost use Rattle.tape_sections.specs.Floats.{float_bytes, floats_of};
ghost use Rattle.run_bytes.specs.Sums.{sums_of};
ghost use Rattle.run_bytes.specs.Layout.{stored_length, carrier_words, phase_words, clock_words, head_words, word_bytes, rack_bytes, lists_fit, body_of, save_left};
ghost use Rattle.run_bytes.specs.Reading.{number_of, words_at, carrier_from, phase_from, clock_from, state_of, is_racked, is_head, sums_match, sound, head_of, rack_at, restored_of, restore_left};

use constants::SamplesPerPulse;
use distributions::{CarrierOffset, CarrierPhase, ClockError};
use floats::{bits_of, f64_of};
use message_config::Delays;
use pulse_shape::Filters;
use rack::{MOST_FEEDS, Rack};
use refusals::Refusal;
use run_call::State;
use settings::{Distributions, MessagesPerSecond};

// "MORE1090", its first letter the lowest byte.
const MAGIC: u64 = 0x3039_3031_4552_4f4d;

// The version of the layout.
const VERSION: u64 = 1;

// The words of the head, and its bytes.
const HEAD_COUNT: usize = 30;

const HEAD_LEN: usize = 240;

// The bytes of the check: two words.
const SUMS_LEN: usize = 16;

// The bytes of a rack before its memory, and with it.
const RACK_STATE_LEN: usize = 208;

const RACK_LEN: usize = 32968;

// Why bytes are not taken up as a run.
#[derive(Clone, Copy, PartialEq, Eq)]
pub enum Unreadable {
    // The length of a lent buffer.
    Buffers,
    // Too few bytes, or another number than they say.
    Short,
    // Bytes of something else.
    Foreign,
    // Another version.
    Version,
    // The check, or a value that no state has.
    Damaged,
}

impl Unreadable {
    // The number (SPECIFICATION 3.1).
    #[tactic(auto, unfolding(crate::specs::Reading::number_of))]
    pub fn number(self) -> u64
        ensures { result ≡ number_of self }
    {
        match self {
            Unreadable::Buffers => 9,
            Unreadable::Short => 19,
            Unreadable::Foreign => 20,
            Unreadable::Version => 21,
            Unreadable::Damaged => 22,
        }
    }
}

// A run that is taken up again, with the rack behind it where there is one.
#[derive(Clone, Copy)]
pub struct Restored {
    pub state: State,
    pub rack: Option<Rack>,
}

// A distribution as three words: its kind, and two f64 by their patterns. Public, as `Sums` is, since theorems of other crates speak of it.
#[derive(Clone, Copy)]
pub struct DistributionWords {
    pub kind: u64,
    pub first: u64,
    pub second: u64,
}

// The sum of bytes, and the sum of the sums of each first part.
#[derive(Clone, Copy)]
pub struct Sums {
    pub sum: u64,
    pub sum_of_sums: u64,
}

// The bytes of a stored run.
#[tactic(auto, unfolding(crate::specs::Layout::stored_length))]
pub fn stored_len(setting: SamplesPerPulse, racked: bool) -> usize
    ensures { (result ≡ stored_length setting racked) × (result ≤ 131072) }
{
    let rack = if racked { RACK_LEN } else { 0 };
    HEAD_LEN + 4 * (2 * setting.prototype_len() + setting.memory_len()) + rack + SUMS_LEN
}

#[tactic(auto, unfolding(crate::specs::Layout::carrier_words))]
fn carrier_words(d: CarrierOffset) -> DistributionWords
    ensures { result ≡ carrier_words d }
{
    match d {
        CarrierOffset::Constant(x) => DistributionWords {
            kind: 0,
            first: bits_of(x),
            second: 0,
        },
        CarrierOffset::ClampedNormal(sigma, max) => DistributionWords {
            kind: 1,
            first: bits_of(sigma),
            second: bits_of(max),
        },
    }
}

#[tactic(auto, unfolding(crate::specs::Layout::phase_words))]
fn phase_words(d: CarrierPhase) -> DistributionWords
    ensures { result ≡ phase_words d }
{
    match d {
        CarrierPhase::Constant(x) => DistributionWords {
            kind: 0,
            first: bits_of(x),
            second: 0,
        },
        CarrierPhase::Uniform => DistributionWords {
            kind: 1,
            first: 0,
            second: 0,
        },
    }
}

#[tactic(auto, unfolding(crate::specs::Layout::clock_words))]
fn clock_words(d: ClockError) -> DistributionWords
    ensures { result ≡ clock_words d }
{
    match d {
        ClockError::Constant(x) => DistributionWords {
            kind: 0,
            first: bits_of(x),
            second: 0,
        },
        ClockError::Uniform(max) => DistributionWords {
            kind: 1,
            first: bits_of(max),
            second: 0,
        },
    }
}

// Kind 0 is constant, any other the other.
#[tactic(auto, unfolding(crate::specs::Reading::carrier_from))]
fn carrier_from(d: DistributionWords) -> CarrierOffset
    ensures { result ≡ carrier_from d }
{
    if d.kind == 0 {
        CarrierOffset::Constant(f64_of(d.first))
    } else {
        CarrierOffset::ClampedNormal(f64_of(d.first), f64_of(d.second))
    }
}

#[tactic(auto, unfolding(crate::specs::Reading::phase_from))]
fn phase_from(d: DistributionWords) -> CarrierPhase
    ensures { result ≡ phase_from d }
{
    if d.kind == 0 {
        CarrierPhase::Constant(f64_of(d.first))
    } else {
        CarrierPhase::Uniform
    }
}

#[tactic(auto, unfolding(crate::specs::Reading::clock_from))]
fn clock_from(d: DistributionWords) -> ClockError
    ensures { result ≡ clock_from d }
{
    if d.kind == 0 {
        ClockError::Constant(f64_of(d.first))
    } else {
        ClockError::Uniform(f64_of(d.first))
    }
}

// The f32 of a rack's memory, none where there is no rack.
fn rack_memory_len(racked: bool) -> usize
    ensures { result ≡ cond racked memory_length 0 }
{
    if racked { rack::MEMORY_LEN } else { 0 }
}

// The words of the head.
#[tactic(auto, unfolding(crate::specs::Layout::head_words))]
fn head_words(s: State, racked: bool) -> [u64; HEAD_COUNT]
    ensures { result ≡ head_words s racked }
{
    let carrier = carrier_words(s.distributions.carrier);
    let phase = phase_words(s.distributions.phase);
    let clock = clock_words(s.distributions.clock);
    [
        MAGIC,
        VERSION,
        stored_len(s.setting, racked) as u64,
        s.setting.prototype_len() as u64,
        s.setting.memory_len() as u64,
        rack_memory_len(racked) as u64,
        s.written,
        s.total,
        bits_of(s.time),
        bits_of(s.latest),
        bits_of(s.rates.extended_squitter),
        bits_of(s.rates.acquisition_squitter),
        bits_of(s.rates.short_ap),
        bits_of(s.rates.all_call_reply),
        bits_of(s.rates.long_ap),
        bits_of(s.rates.military_extended_squitter),
        bits_of(s.rates.mode_ac),
        bits_of(s.delays.mode_s),
        bits_of(s.delays.mode_ac),
        carrier.kind,
        carrier.first,
        carrier.second,
        phase.kind,
        phase.first,
        phase.second,
        clock.kind,
        clock.first,
        clock.second,
        u64::from(s.ended),
        s.setting.number(),
    ]
}

// Words written from an offset on.
#[tactic(auto, unfolding(crate::specs::Layout::word_bytes), using(crate::proofs::Written::write_word, reply_record::proofs::Overwritten::none_overwritten))]
fn put_words(words: &[u64], out: &mut [u8], at: usize)
    requires { at + 8 * length words.now ≤ length out.old }
    ensures { out.new ≡ overwritten out.old at (word_bytes words.now) }
{
    for k in 0..words.len() {
        le_write::put::<u64>(out, at + 8 * k, words[k]);
    }
}

// Floats written from an offset on.
fn put_floats(floats: &[f32], out: &mut [u8], at: usize)
    requires { at + 4 * length floats.now ≤ length out.old }
    ensures { out.new ≡ overwritten out.old at (float_bytes floats.now) }
{
    tape_sections::float_bytes(floats, &mut out[at..at + 4 * floats.len()]);
}

// Both sums of bytes.
#[tactic(auto, unfolding(crate::specs::Sums::sums_of, crate::specs::Sums::sums_from), using(crate::proofs::Read::next_sum))]
fn sums_of(bytes: &[u8]) -> Sums
    requires { length bytes.now ≤ 131072 }
    ensures { result ≡ sums_of bytes.now }
{
    let mut sum = 0;
    let mut sum_of_sums = 0;
    for k in 0..bytes.len() {
        sum += u64::from(bytes[k]);
        sum_of_sums += sum;
    }
    Sums { sum, sum_of_sums }
}

// A rack written from an offset on.
fn put_rack(rack: Rack, memory: &[f32], out: &mut [u8], at: usize)
    requires { at + 208 + 4 * length memory.now ≤ length out.old }
    ensures { (out.new ≡ overwritten out.old at (rack_bytes (Some rack) memory.now)) × (length (rack_bytes (Some rack) memory.now) ≡ 208 + 4 * length memory.now) }
{
    let delays = rack.delays;
    let gains = rack.gains;
    put_words(&[rack.feeds, rack.seen], out, at);
    put_words(&delays, out, at + 16);
    put_floats(&gains, out, at + 144);
    put_floats(memory, out, at + RACK_STATE_LEN);
}

fn put_any_rack(rack: Option<Rack>, memory: &[f32], out: &mut [u8], at: usize)
    requires { at + cond (is_some rack) (208 + 4 * length memory.now) 0 ≤ length out.old }
    ensures { (out.new ≡ overwritten out.old at (rack_bytes rack memory.now)) × (length (rack_bytes rack memory.now) ≡ cond (is_some rack) (208 + 4 * length memory.now) 0) }
{
    match rack {
        Some(rack) => put_rack(rack, memory, out, at),
        None => {}
    }
}

// What the check is of. The lists are passed apart, as C lends them.
fn put_body(
    state: State,
    prototypes: Filters,
    memory: &[f32],
    rack: Option<Rack>,
    rack_memory: &[f32],
    out: &mut [u8],
)
    requires { 240 + 4 * length prototypes.mode_s.now + 4 * length prototypes.mode_ac.now + 4 * length memory.now + cond (is_some rack) (208 + 4 * length rack_memory.now) 0 ≤ length out.old }
    ensures { let body = body_of (record { state = state; mode_s = prototypes.entry.mode_s.now; mode_ac = prototypes.entry.mode_ac.now; memory = memory.now; rack = rack; rack_memory = rack_memory.now }) in
        (out.new ≡ overwritten out.old 0 body) × (length body ≡ 240 + 4 * length prototypes.entry.mode_s.now + 4 * length prototypes.entry.mode_ac.now + 4 * length memory.now + cond (is_some rack) (208 + 4 * length rack_memory.now) 0) }
{
    let words = head_words(state, rack.is_some());
    let mode_ac_place = HEAD_LEN + 4 * prototypes.mode_s.len();
    let memory_place = mode_ac_place + 4 * prototypes.mode_ac.len();
    let rack_place = memory_place + 4 * memory.len();
    put_words(&words, out, 0);
    put_floats(prototypes.mode_s, out, HEAD_LEN);
    put_floats(prototypes.mode_ac, out, mode_ac_place);
    put_floats(memory, out, memory_place);
    put_any_rack(rack, rack_memory, out, rack_place);
}

// The check of the first bytes, behind them.
fn put_check(out: &mut [u8], end: usize)
    requires { (end + 16 ≡ length out.old) × (length out.old ≤ 131072) }
    ensures { out.new ≡ overwritten out.old end (word_bytes ((sums_of (take end out.old)).sum ∷ (sums_of (take end out.old)).sum_of_sums ∷ [])) }
{
    let sums = sums_of(&out[..end]);
    put_words(&[sums.sum, sums.sum_of_sums], out, end);
}

// The lists have the lengths that the setting asks for, and a rack's memory is there where a rack is.
#[tactic(auto, unfolding(crate::specs::Layout::lists_fit))]
fn lists_fit(
    setting: SamplesPerPulse,
    racked: bool,
    mode_s: usize,
    mode_ac: usize,
    memory: usize,
    rack_memory: usize,
) -> bool
    ensures { result ≡ lists_fit setting racked mode_s mode_ac memory rack_memory }
{
    let prototype = setting.prototype_len();
    mode_s == prototype
        && mode_ac == prototype
        && memory == setting.memory_len()
        && rack_memory == rack_memory_len(racked)
}

// Writes a run between two calls to bytes of its length: its state, prototypes and working memory, and the rack behind it with its memory. With no rack its memory is empty. Any other length is refusal 9, which writes nothing.
#[tactic(auto, unfolding(crate::specs::Layout::save_left, crate::specs::Layout::held_fits))]
pub fn save(
    state: State,
    prototypes: Filters,
    memory: &[f32],
    rack: Option<Rack>,
    rack_memory: &[f32],
    bytes: &mut [u8],
) -> Result<(), Refusal>
    ensures { record { answer = result; bytes = bytes.new } ≡ save_left (record { state = state; mode_s = prototypes.entry.mode_s.now; mode_ac = prototypes.entry.mode_ac.now; memory = memory.now; rack = rack; rack_memory = rack_memory.now }) bytes.old }
{
    let racked = rack.is_some();
    let fits = lists_fit(
        state.setting,
        racked,
        prototypes.mode_s.len(),
        prototypes.mode_ac.len(),
        memory.len(),
        rack_memory.len(),
    );
    if !fits || bytes.len() != stored_len(state.setting, racked) {
        return Err(Refusal::Length);
    }
    put_body(state, prototypes, memory, rack, rack_memory, bytes);
    put_check(bytes, bytes.len() - SUMS_LEN);
    Ok(())
}

// Words from an offset on, as many as there is room for.
#[tactic(auto, unfolding(crate::specs::Reading::words_at), using(crate::proofs::Read::read_word))]
fn words_at(bytes: &[u8], at: usize, out: &mut [u64])
    requires { (at ≤ 131072) × (length out.old ≤ 30) }
    ensures { out.new ≡ words_at (length out.old) bytes.now at }
{
    for k in 0..out.len() {
        out[k] = le_read::number::<u64>(bytes, at + 8 * k);
    }
}

#[tactic(auto, unfolding(crate::specs::Reading::is_racked))]
fn is_racked(head: [u64; HEAD_COUNT]) -> bool
    ensures { result ≡ is_racked head }
{
    head[5] != 0
}

// Three words of a head as a distribution.
fn distribution_at(w: [u64; HEAD_COUNT], at: usize) -> DistributionWords
    requires { at + 2 < 30 }
    ensures { result ≡ record { kind = get_or w at 0; first = get_or w (at + 1) 0; second = get_or w (at + 2) 0 } }
{
    DistributionWords {
        kind: w[at],
        first: w[at + 1],
        second: w[at + 2],
    }
}

// The state by the words of a head, whatever they are.
#[tactic(auto, unfolding(crate::specs::Reading::state_of))]
fn state_of(w: [u64; HEAD_COUNT]) -> State
    ensures { result ≡ state_of w }
{
    State {
        written: w[6],
        total: w[7],
        time: f64_of(w[8]),
        latest: f64_of(w[9]),
        ended: w[28] != 0,
        rates: MessagesPerSecond {
            extended_squitter: f64_of(w[10]),
            acquisition_squitter: f64_of(w[11]),
            short_ap: f64_of(w[12]),
            all_call_reply: f64_of(w[13]),
            long_ap: f64_of(w[14]),
            military_extended_squitter: f64_of(w[15]),
            mode_ac: f64_of(w[16]),
        },
        delays: Delays {
            mode_s: f64_of(w[17]),
            mode_ac: f64_of(w[18]),
        },
        distributions: Distributions {
            carrier: carrier_from(distribution_at(w, 19)),
            phase: phase_from(distribution_at(w, 22)),
            clock: clock_from(distribution_at(w, 25)),
        },
        setting: SamplesPerPulse::from_number(w[29]),
    }
}

// The last two words are the sums of the bytes before them.
#[tactic(auto, unfolding(crate::specs::Reading::sums_match))]
fn sums_match(bytes: &[u8]) -> bool
    requires { (16 ≤ length bytes.now) × (length bytes.now ≤ 131072) }
    ensures { result ≡ sums_match bytes.now }
{
    let end = bytes.len() - SUMS_LEN;
    let sums = sums_of(&bytes[..end]);
    let sum = le_read::number::<u64>(bytes, end);
    let sum_of_sums = le_read::number::<u64>(bytes, end + 8);
    sum == sums.sum && sum_of_sums == sums.sum_of_sums
}

// The setting by the words of a head.
fn setting_of(head: [u64; HEAD_COUNT]) -> SamplesPerPulse
    ensures { result ≡ setting_from (get_or head 29 0) }
{
    SamplesPerPulse::from_number(head[29])
}

// These words are the head that some state has.
#[tactic(auto, unfolding(crate::specs::Reading::is_head))]
fn is_head(head: [u64; HEAD_COUNT]) -> bool
    ensures { result ≡ is_head head }
{
    head == head_words(state_of(head), is_racked(head))
}

// The bytes are a run's: the words are the head of a state, of as many bytes, and the check fits.
#[tactic(auto, unfolding(crate::specs::Reading::sound))]
fn sound(head: [u64; HEAD_COUNT], bytes: &[u8]) -> bool
    requires { 256 ≤ length bytes.now }
    ensures { (result ≡ sound head bytes.now) × (result ≡ true → length bytes.now ≡ stored_length (setting_from (get_or head 29 0)) (is_racked head)) }
{
    if !is_head(head) {
        return false;
    }
    if bytes.len() != stored_len(setting_of(head), is_racked(head)) {
        return false;
    }
    sums_match(bytes)
}

// The words of the head of sound bytes, or what is wrong.
#[tactic(auto, unfolding(crate::specs::Reading::head_of, crate::specs::Reading::head_at))]
fn head_of(bytes: &[u8]) -> Result<[u64; HEAD_COUNT], Unreadable>
    ensures { (result ≡ head_of bytes.now) × IfOk result (λ ws. length bytes.now ≡ stored_length (setting_from (get_or ws 29 0)) (is_racked ws)) }
{
    let mut head = [0; HEAD_COUNT];
    words_at(bytes, 0, &mut head);
    if bytes.len() < HEAD_LEN + SUMS_LEN {
        return Err(Unreadable::Short);
    }
    if head[0] != MAGIC {
        return Err(Unreadable::Foreign);
    }
    if head[1] != VERSION {
        return Err(Unreadable::Version);
    }
    if head[2] != bytes.len() as u64 {
        return Err(Unreadable::Short);
    }
    if !sound(head, bytes) {
        return Err(Unreadable::Damaged);
    }
    Ok(head)
}

// Floats from an offset on.
fn floats_at(bytes: &[u8], at: usize, out: &mut [f32])
    requires { 4 * length out.old ≤ length bytes.now - at }
    ensures { out.new ≡ floats_of (length out.old) (drop at bytes.now) }
{
    tape_sections::floats(bytes.get(at..).unwrap_or(&[]), out);
}

// The rack at an offset.
#[tactic(auto, unfolding(crate::specs::Reading::rack_at))]
fn rack_at(bytes: &[u8], at: usize) -> Rack
    requires { (at + 208 ≤ length bytes.now) × (length bytes.now ≤ 131072) }
    ensures { result ≡ rack_at bytes.now at }
{
    let mut delays = [0; MOST_FEEDS];
    let mut gains = [0.0; MOST_FEEDS];
    words_at(bytes, at + 16, &mut delays);
    floats_at(bytes, at + 144, &mut gains);
    Rack {
        feeds: le_read::number::<u64>(bytes, at),
        seen: le_read::number::<u64>(bytes, at + 8),
        delays,
        gains,
    }
}

#[tactic(auto, unfolding(crate::specs::Reading::restored_of))]
fn restored_of(bytes: &[u8], head: [u64; HEAD_COUNT], rack_place: usize) -> Restored
    requires { length bytes.now ≡ stored_length (setting_from (get_or head 29 0)) (is_racked head) × (rack_place ≡ Rattle.run_bytes.specs.Reading.rack_place (setting_from (get_or head 29 0))) }
    ensures { result ≡ restored_of bytes.now head }
{
    let rack = if is_racked(head) {
        Some(rack_at(bytes, rack_place))
    } else {
        None
    };
    Restored {
        state: state_of(head),
        rack,
    }
}

// Reads a run back from bytes into buffers of the lengths that it asks for, a rack's memory empty where there is no rack. A refusal takes nothing and changes no buffer. The buffers are passed apart, as C lends them.
#[tactic(auto, unfolding(crate::specs::Reading::restore_left, crate::specs::Reading::taken_by, crate::specs::Reading::filled_of))]
pub fn restore(
    bytes: &[u8],
    mode_s: &mut [f32],
    mode_ac: &mut [f32],
    memory: &mut [f32],
    rack_memory: &mut [f32],
) -> Result<Restored, Unreadable>
    ensures { record { answer = result; lent = record { mode_s = mode_s.new; mode_ac = mode_ac.new; memory = memory.new; rack_memory = rack_memory.new } } ≡ restore_left bytes.now (record { mode_s = mode_s.old; mode_ac = mode_ac.old; memory = memory.old; rack_memory = rack_memory.old }) }
{
    let head = head_of(bytes)?;
    if !lists_fit(
        setting_of(head),
        is_racked(head),
        mode_s.len(),
        mode_ac.len(),
        memory.len(),
        rack_memory.len(),
    ) {
        return Err(Unreadable::Buffers);
    }
    let mode_ac_place = HEAD_LEN + 4 * mode_s.len();
    let memory_place = mode_ac_place + 4 * mode_ac.len();
    let rack_place = memory_place + 4 * memory.len();
    floats_at(bytes, HEAD_LEN, mode_s);
    floats_at(bytes, mode_ac_place, mode_ac);
    floats_at(bytes, memory_place, memory);
    floats_at(bytes, rack_place + RACK_STATE_LEN, rack_memory);
    Ok(restored_of(bytes, head, rack_place))
}
