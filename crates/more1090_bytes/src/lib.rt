// A run as bytes under C names (SPECIFICATION 16): stored, and read back.
#![tactic(auto)]

ghost use Rattle.std.specs.Prelude.{◌≡◌};
ghost use Rattle.more1090_bytes.specs.Flat.{rack_given, saved_flat, save_flat, rack_flat, restored_flat, restore_flat};

use more1090_generator::FlatState;
use pulse_shape::Filters;
use rack::{MOST_FEEDS, Rack};
use refusals::Refusal;
use run_bytes::{Restored, Unreadable};

// What reading a run back answers: its state, its rack, all zero where there is none, and the refusal's number, 0 for none.
#[repr(C)]
#[derive(Clone, Copy)]
pub struct FlatRestored {
    pub state: FlatState,
    pub rack: Rack,
    pub refusal: u64,
}

// A rack is there where it has a memory.
#[tactic(auto, unfolding(crate::specs::Flat::rack_given))]
fn rack_given(rack: Rack, rack_memory: &[f32]) -> Option<Rack>
    ensures { result ≡ rack_given rack rack_memory.now }
{
    if rack_memory.is_empty() {
        None
    } else {
        Some(rack)
    }
}

#[tactic(auto, unfolding(crate::specs::Flat::saved_flat))]
fn saved_flat(answer: Result<(), Refusal>) -> u64
    ensures { result ≡ saved_flat answer }
{
    match answer {
        Ok(()) => 0,
        Err(q) => q.number(),
    }
}

// The rack, or one of zeros where there is none.
#[tactic(auto, unfolding(crate::specs::Flat::rack_flat, rack::specs::Opening::rack_of, rack::specs::Opening::delay_row, rack::specs::Opening::gain_row, rack::specs::Feeds::silent))]
fn rack_flat(rack: Option<Rack>) -> Rack
    ensures { result ≡ rack_flat rack }
{
    match rack {
        Some(rack) => rack,
        None => Rack {
            feeds: 0,
            seen: 0,
            delays: [0; MOST_FEEDS],
            gains: [0.0; MOST_FEEDS],
        },
    }
}

#[tactic(auto, unfolding(crate::specs::Flat::restored_flat, crate::specs::Flat::rack_flat))]
fn restored_flat(answer: Result<Restored, Unreadable>) -> FlatRestored
    ensures { result ≡ restored_flat answer }
{
    match answer {
        Ok(restored) => FlatRestored {
            state: more1090_generator::state_out(restored.state),
            rack: rack_flat(restored.rack),
            refusal: 0,
        },
        Err(q) => FlatRestored {
            state: more1090_generator::no_state(),
            rack: rack_flat(None),
            refusal: q.number(),
        },
    }
}

// Stores a run between two calls, with the rack behind it where a rack's memory is lent. Refusal 0 is none.
#[tactic(auto, unfolding(crate::specs::Flat::save_flat, crate::specs::Flat::flat_saved))]
#[unsafe(no_mangle)]
pub extern "C" fn more1090_save(
    state: FlatState,
    mode_s: &[f32],
    mode_ac: &[f32],
    memory: &[f32],
    rack: Rack,
    rack_memory: &[f32],
    bytes: &mut [u8],
) -> u64
    ensures { record { refusal = result; bytes = bytes.new } ≡ save_flat state mode_s.now mode_ac.now memory.now rack rack_memory.now bytes.old }
{
    let state = more1090_generator::state_in(state);
    let prototypes = Filters { mode_s, mode_ac };
    let rack = rack_given(rack, rack_memory);
    saved_flat(run_bytes::save(state, prototypes, memory, rack, rack_memory, bytes))
}

// Reads a run back. Refused, it changes no buffer, and state and rack are all zero.
#[tactic(auto, unfolding(crate::specs::Flat::restore_flat))]
#[unsafe(no_mangle)]
pub extern "C" fn more1090_restore(
    bytes: &[u8],
    mode_s: &mut [f32],
    mode_ac: &mut [f32],
    memory: &mut [f32],
    rack_memory: &mut [f32],
) -> FlatRestored
    ensures { record { answered = result; lent = record { mode_s = mode_s.new; mode_ac = mode_ac.new; memory = memory.new; rack_memory = rack_memory.new } } ≡ restore_flat bytes.now (record { mode_s = mode_s.old; mode_ac = mode_ac.old; memory = memory.old; rack_memory = rack_memory.old }) }
{
    restored_flat(run_bytes::restore(bytes, mode_s, mode_ac, memory, rack_memory))
}
