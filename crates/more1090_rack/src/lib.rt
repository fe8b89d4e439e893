// A rack of delayed feeds under C names.
#![tactic(auto)]

ghost use Rattle.std.specs.Prelude.{◌≡◌};
ghost use Rattle.more1090_rack.specs.Flat.{answer_flat, open_flat, run_flat};

use rack::{MOST_FEEDS, Rack};
use refusals::Refusal;

// What opening and a call answer: the rack for the next call, and a refusal's number, 0 for none.
#[repr(C)]
#[derive(Clone, Copy)]
pub struct Answered {
    pub rack: Rack,
    pub refusal: u64,
}

// The rack that is answered, or the one of before the call.
#[tactic(auto, unfolding(crate::specs::Flat::answer_flat))]
fn answer_flat(before: Rack, answer: Result<Rack, Refusal>) -> Answered
    ensures { result ≡ answer_flat before answer }
{
    match answer {
        Ok(rack) => Answered { rack, refusal: 0 },
        Err(q) => Answered {
            rack: before,
            refusal: q.number(),
        },
    }
}

// Opens a rack: a memory of 8,190 f32, and a delay and a gain for each feed. Refusal 0 is none.
#[tactic(auto, unfolding(crate::specs::Flat::open_flat, rack::specs::Opening::rack_of, rack::specs::Opening::delay_row, rack::specs::Opening::gain_row, rack::specs::Feeds::silent))]
#[unsafe(no_mangle)]
pub extern "C" fn more1090_rack_open(memory: &mut [f32], delays: &[u64], gains: &[f32]) -> Answered
    ensures { record { answered = result; memory = memory.new } ≡ open_flat memory.old delays.now gains.now }
{
    let zeros = Rack {
        feeds: 0,
        seen: 0,
        delays: [0; MOST_FEEDS],
        gains: [0.0; MOST_FEEDS],
    };
    answer_flat(zeros, rack::open(memory, delays, gains))
}

// A call on a rack: samples to read, and as much room for each feed, feed 0's first. Refusal 0 is none.
#[tactic(auto, unfolding(crate::specs::Flat::run_flat))]
#[unsafe(no_mangle)]
pub extern "C" fn more1090_rack_run(
    rack: Rack,
    memory: &mut [f32],
    samples: &[f32],
    room: &mut [f32],
) -> Answered
    ensures { record { answered = result; memory = memory.new; room = room.new } ≡ run_flat rack memory.old (record { samples = samples.entry.now; room = room.old }) }
{
    answer_flat(rack, rack::run(rack, memory, samples, room))
}
