// A rack of delayed feeds (SPECIFICATION 15): opening it, and calls on it, in which the feeds are written and the memory is moved on.
#![tactic(auto)]

ghost use Rattle.std.specs.Prelude.{◌≡◌, ◌≤◌, ◌++◌, length, drop, replicate, cond, ◌&&◌, ◌*◌, eqb, min, ◌+◌, ◌/◌, ◌%◌};
ghost use Rattle.rack.specs.Opening.{gain_fits, each_fits, checked, open_left};
ghost use Rattle.rack.specs.Feeds.{scaled};
ghost use Rattle.rack.specs.Memory.{feed_of, held_after};
ghost use Rattle.rack.specs.Calls.{feed_count, feeds_up_to, run_left};

use refusals::Refusal;

// The most feeds.
pub const MOST_FEEDS: usize = 16;

// The longest delay, in samples.
pub const LONGEST_DELAY: u64 = 4095;

// The memory, in f32: two for each sample of the longest delay.
pub const MEMORY_LEN: usize = 8190;

// A rack between two calls: the number of feeds, the samples seen so far, counted up to 4,095, and each feed's delay and gain.
// Two arrays, and not one of `Feed`: C holds it so.
#[repr(C)]
#[derive(Clone, Copy)]
pub struct Rack {
    pub feeds: u64,
    pub seen: u64,
    pub delays: [u64; MOST_FEEDS],
    pub gains: [f32; MOST_FEEDS],
}

// A feed: its delay in samples, and its gain.
#[derive(Clone, Copy)]
struct Feed {
    pub delay: u64,
    pub gain: f32,
}

// What a call's feeds are written from: the memory of the calls before, the samples seen in these, counted up to 4,095, and the call's own samples.
#[derive(Clone, Copy)]
struct Past<'a> {
    pub memory: &'a [f32],
    pub seen: u64,
    pub samples: &'a [f32],
}

// From 0 to 1. -0.0 is in range, a NaN is not.
#[tactic(auto, unfolding(crate::specs::Opening::gain_fits))]
fn gain_fits(gain: f32) -> bool
    ensures { result ≡ gain_fits gain }
{
    gain >= 0.0 && gain <= 1.0
}

// Every delay and gain is in range.
fn each_fits(delays: &[u64], gains: &[f32]) -> bool
    ensures { result ≡ each_fits delays.now gains.now }
{
    for (delay, gain) in delays.iter().zip(gains) {
        if *delay > LONGEST_DELAY || !gain_fits(*gain) {
            return false;
        }
    }
    true
}

// What these settings and this length of the memory are refused with.
// The parameters are those of the C interface, whose delays and gains stand apart.
#[tactic(auto, unfolding(crate::specs::Opening::checked, crate::specs::Opening::wrong_lengths, crate::specs::Opening::wrong_feeds))]
fn check(memory: usize, delays: &[u64], gains: &[f32]) -> Result<(), Refusal>
    ensures { result ≡ checked memory delays.now gains.now }
{
    if memory != MEMORY_LEN || delays.len() != gains.len() {
        return Err(Refusal::Length);
    }
    if delays.is_empty() || delays.len() > MOST_FEEDS || !each_fits(delays, gains) {
        return Err(Refusal::Feeds);
    }
    Ok(())
}

// An entry for each feed, and the same one behind them.
fn row<T: Copy>(entries: &[T], rest: T) -> [T; MOST_FEEDS]
    requires { length entries.now ≤ 16 }
    ensures { result ≡ entries.now ++ drop (length entries.now) (replicate 16 rest) }
{
    let mut row = [rest; MOST_FEEDS];
    row[..entries.len()].copy_from_slice(entries);
    row
}

// Opens a rack; refused, it leaves the memory as it is. The delays and gains stand apart, as C lends them.
#[tactic(auto, using(crate::proofs::Checks::fits), unfolding(crate::specs::Opening::open_left, crate::specs::Opening::left_by, crate::specs::Opening::rack_of, crate::specs::Opening::delay_row, crate::specs::Opening::gain_row, crate::specs::Feeds::silent))]
pub fn open(memory: &mut [f32], delays: &[u64], gains: &[f32]) -> Result<Rack, Refusal>
    ensures { record { answer = result; memory = memory.new } ≡ open_left memory.old delays.now gains.now }
{
    check(memory.len(), delays, gains)?;
    memory.fill(0.0);
    Ok(Rack {
        feeds: delays.len() as u64,
        seen: 0,
        delays: row(delays, 0),
        gains: row(gains, 0.0),
    })
}

// The numbers of a delay or of the samples seen, two each. More than the memory holds are read as what it holds.
fn numbers(samples: u64) -> usize
    ensures { result ≡ 2 * min samples 4095 }
{
    2 * samples.min(LONGEST_DELAY) as usize
}

// Writes the gain times each number.
fn scale(gain: f32, from: &[f32], to: &mut [f32])
    requires { length from.now ≡ length to.old }
    ensures { to.new ≡ scaled gain from.now }
{
    for i in 0..to.len() {
        to[i] = gain * from[i];
    }
}

// Writes a feed: 0.0 for what was never seen, then from the memory, then from the samples.
fn write_feed(past: Past, feed: Feed, room: &mut [f32])
    requires { (length past.memory.now ≡ 8190) × (length room.old ≡ length past.samples.now) }
    ensures { room.new ≡ feed_of feed.gain feed.delay past.entry.seen past.entry.memory.now past.entry.samples.now }
{
    let Past {
        memory,
        seen,
        samples,
    } = past;
    let n = samples.len();
    let back = numbers(feed.delay);
    let unseen = n.min(back.saturating_sub(numbers(seen)));
    let held = n.min(back);
    let start = MEMORY_LEN - back + unseen;
    room[..unseen].fill(0.0);
    scale(
        feed.gain,
        &memory[start..start + (held - unseen)],
        &mut room[unseen..held],
    );
    scale(feed.gain, &samples[..n - held], &mut room[held..]);
}

// Copies numbers, by a loop: std's `copy_from_slice` becomes a call of `memmove` here, which the library for C asks of nobody else.
fn copy(from: &[f32], to: &mut [f32])
    requires { length from.now ≡ length to.old }
    ensures { to.new ≡ from.now }
{
    for i in 0..to.len() {
        to[i] = from[i];
    }
}

// Moves the memory on by the samples of a call.
#[tactic(auto, using(crate::proofs::Held::moved_and_filled, crate::proofs::Held::filled_whole))]
fn hold(memory: &mut [f32; MEMORY_LEN], samples: &[f32])
    ensures { memory.new ≡ held_after memory.old samples.now }
{
    let n = samples.len();
    if n < MEMORY_LEN {
        memory.copy_within(n.., 0);
        copy(samples, &mut memory[MEMORY_LEN - n..]);
        return;
    }
    copy(&samples[n - MEMORY_LEN..], memory);
}

// Moves a memory on. One of another length stays as it is.
fn move_on(memory: &mut [f32], samples: &[f32])
    ensures { memory.new ≡ cond (eqb (length memory.old) 8190) (held_after memory.old samples.now) memory.old }
{
    if let Some(memory) = memory.as_mut_array() {
        hold(memory, samples);
    }
}

// Writes the first feeds of a rack, feed 0's first.
#[tactic(auto, unfolding(crate::specs::Calls::feeds_up_to))]
fn write_feeds(rack: &Rack, past: Past, room: &mut [f32], count: usize)
    requires { (length past.memory.now ≡ 8190) × (length room.old ≡ count * length past.samples.now) × (count ≤ 16) }
    ensures { room.new ≡ feeds_up_to count rack.now.delays rack.now.gains past.entry.seen past.entry.memory.now past.entry.samples.now }
{
    let n = past.samples.len();
    // By index: `chunks_exact_mut` asks for a length above 0, and a call may have no samples.
    for i in 0..count {
        let feed = Feed {
            delay: rack.delays[i],
            gain: rack.gains[i],
        };
        let at = i * n;
        write_feed(past, feed, &mut room[at..at + n]);
    }
}

// The samples seen after a call of n numbers, counted up to 4,095.
fn seen_after(seen: u64, n: usize) -> u64
    ensures { result ≡ min (seen + n / 2) 4095 }
{
    seen.saturating_add((n / 2) as u64).min(LONGEST_DELAY)
}

// The samples and the room have lengths that fit this many feeds.
fn lengths_fit(count: usize, samples: usize, room: usize) -> bool
    ensures { result ≡ (eqb (samples % 2) 0 && eqb room (count * samples)) }
{
    samples % 2 == 0 && count.checked_mul(samples) == Some(room)
}

// The feeds of a state: more than sixteen are read as sixteen.
#[tactic(auto, unfolding(crate::specs::Calls::feed_count))]
fn feed_count(feeds: u64) -> usize
    ensures { result ≡ feed_count feeds }
{
    feeds.min(MOST_FEEDS as u64) as usize
}

// A call on a rack. Refused, it changes no buffer, and the rack goes on as it is.
// Memory, samples and room are passed apart, as C lends them.
#[tactic(auto, unfolding(crate::specs::Calls::run_left, crate::specs::Calls::lengths_fit, crate::specs::Calls::rack_after, crate::specs::Calls::feed_count))]
pub fn run(
    rack: Rack,
    memory: &mut [f32],
    samples: &[f32],
    room: &mut [f32],
) -> Result<Rack, Refusal>
    ensures { record { answer = result; memory = memory.new; room = room.new } ≡ run_left rack memory.old (record { samples = samples.entry.now; room = room.old }) }
{
    let count = feed_count(rack.feeds);
    if memory.len() != MEMORY_LEN || !lengths_fit(count, samples.len(), room.len()) {
        return Err(Refusal::Length);
    }
    let past = Past {
        memory,
        seen: rack.seen,
        samples,
    };
    write_feeds(&rack, past, room, count);
    move_on(memory, samples);
    Ok(Rack {
        seen: seen_after(rack.seen, samples.len()),
        ..rack
    })
}
