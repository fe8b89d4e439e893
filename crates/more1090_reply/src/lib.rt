// Levels, parity, flipped bits, classing and interrogators under C names.
// A C name for each function, also where a body is one call.
#![tactic(auto)]

ghost use Rattle.std.specs.Prelude.{◌≡◌};
ghost use Rattle.draw_level.specs.Levels.{level_of};
ghost use Rattle.more1090_reply.specs.LevelInC.{refusal_of, amplitude_left};
ghost use Rattle.mode_s.specs.Parity.{parity_of};
ghost use Rattle.mode_s.specs.Change.{change_at, place_of};
ghost use Rattle.message.specs.Classing.{class_of_bytes, class_number};
ghost use Rattle.message.specs.Interrogators.{interrogator_of, kind_number, code_number};
ghost use Rattle.more1090_reply.specs.Places.{place_number};

// The number of no refusal.
const OK: u64 = 0;

// The amplitude of a level in tenths of a decibel. Answers 0, or 13 above 200.0 dB, and then leaves the amplitude as it was.
#[unsafe(no_mangle)]
#[tactic(auto, unfolding(crate::specs::LevelInC::refusal_of, crate::specs::LevelInC::amplitude_left))]
pub extern "C" fn more1090_level(tenths: u64, amplitude: &mut f32) -> u64
    ensures { (result ≡ refusal_of (level_of tenths)) × (amplitude.new ≡ amplitude_left (level_of tenths) amplitude.old) }
{
    match draw_level::of_tenths(tenths) {
        Ok(x) => {
            *amplitude = x;
            OK
        }
        Err(refusal) => refusal.number(),
    }
}

// The parity of bytes, however many.
#[unsafe(no_mangle)]
pub extern "C" fn more1090_parity(bytes: &[u8]) -> u32
    ensures { result ≡ parity_of bytes.now }
{
    mode_s::parity(bytes)
}

// The change in parity of a message whose bit at a place is flipped, places counted back from 0 at the last bit; 0 above 111.
#[unsafe(no_mangle)]
pub extern "C" fn more1090_parity_change(place: u64) -> u32
    ensures { result ≡ change_at place }
{
    mode_s::parity_change(place)
}

// The place whose flipped bit changes the parity so, or 2^64 - 1 for none.
#[tactic(auto, unfolding(crate::specs::Places::place_number))]
#[unsafe(no_mangle)]
pub extern "C" fn more1090_flipped_bit(change: u32) -> u64
    ensures { result ≡ place_number (place_of change) }
{
    mode_s::flipped_bit(change).unwrap_or(0xffff_ffff_ffff_ffff)
}

// The class of message bytes, however many: its type's number, 7 for TIS-B, 255 for none.
#[unsafe(no_mangle)]
pub extern "C" fn more1090_class(message: &[u8]) -> u8
    ensures { result ≡ class_number (class_of_bytes message.now) }
{
    message::class_number(message::class_of_bytes(message))
}

// Which interrogator message bytes, however many, answer: the kind, 0 for none, 1 for an II code, 2 for an SI code, 3 for unassigned; and the code, 0 where there is none.
#[unsafe(no_mangle)]
pub extern "C" fn more1090_interrogator(message: &[u8], code: &mut u32) -> u32
    ensures { (result ≡ kind_number (interrogator_of message.now)) × (code.new ≡ code_number (interrogator_of message.now)) }
{
    let reading = message::interrogator_of_bytes(message);
    *code = message::code_number(reading);
    message::kind_number(reading)
}
