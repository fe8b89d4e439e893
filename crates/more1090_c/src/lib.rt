// The library for C: each function calls the one of its name, and promises what that promises. A static library exports its own functions alone, so each name stands here once more.
#![tactic(auto)]

ghost use Rattle.std.specs.Prelude.{◌≡◌, length};
ghost use Rattle.run_open.specs.Opening.{opened_of, left_by};
ghost use Rattle.more1090_generator.specs.Answers.{opened_flat, flat_run_left};
ghost use Rattle.run_booking.specs.Booking.{booking_of};
ghost use Rattle.more1090_booking.specs.Flat.{zero64, booking_flat};
ghost use Rattle.single_theory.specs.Single.{single_run, single_output};
ghost use Rattle.single_run.specs.Answer.{answer_of};
ghost use Rattle.more1090_single.specs.Flat.{single_flat};
ghost use Rattle.mode_s.specs.Parity.{parity_of};
ghost use Rattle.mode_s.specs.Change.{change_at, place_of};
ghost use Rattle.message.specs.Classing.{class_of_bytes, class_number};
ghost use Rattle.message.specs.Interrogators.{interrogator_of, kind_number, code_number};
ghost use Rattle.more1090_reply.specs.Places.{place_number};
ghost use Rattle.draw_level.specs.Levels.{level_of};
ghost use Rattle.more1090_reply.specs.LevelInC.{refusal_of, amplitude_left};
ghost use Rattle.page.specs.Pages.{pages_answer, pages_left};
ghost use Rattle.page.specs.Fields.{fields_of};
ghost use Rattle.more1090_records.specs.Flat.{flat_answer, flat_line, line_message};
ghost use Rattle.le_read.specs.LeBytes.{overwritten};
ghost use Rattle.more1090_tape.specs.Flat.{head_wanted, open_left, flat_fed, flat_ending, flat_text};
ghost use Rattle.more1090_records.specs.LogInC.{flat_comparison};
ghost use Rattle.more1090_rack.specs.Flat.{open_flat, run_flat};
ghost use Rattle.more1090_bytes.specs.Flat.{save_flat, restore_flat};

use more1090_booking::FlatBooking;
use more1090_bytes::FlatRestored;
use more1090_generator::{FlatOpened, FlatRan, FlatState};
use more1090_rack::Answered;
use more1090_records::{FlatCompared, FlatLine, FlatPages};
use more1090_single::FlatSingle;
use more1090_tape::{FlatBeginning, FlatEnding, FlatTape};
use rack::Rack;
use tape_text::TEXT_LEN;

// Opens a run; refused, it changes no buffer, and the state is all zero.
#[unsafe(no_mangle)]
pub extern "C" fn more1090_open(
    settings: &[u8],
    taps_s: &[f32],
    taps_ac: &[f32],
    mode_s: &mut [f32],
    mode_ac: &mut [f32],
    memory: &mut [f32],
) -> FlatOpened
    ensures { (result ≡ opened_flat (opened_of taps_s.now taps_ac.now settings.now (record { mode_s = mode_s.old; mode_ac = mode_ac.old; memory = memory.old }))) × (record { mode_s = mode_s.new; mode_ac = mode_ac.new; memory = memory.new } ≡ left_by taps_s.now taps_ac.now (opened_of taps_s.now taps_ac.now settings.now (record { mode_s = mode_s.old; mode_ac = mode_ac.old; memory = memory.old })) (record { mode_s = mode_s.old; mode_ac = mode_ac.old; memory = memory.old })) }
{
    more1090_generator::more1090_open(settings, taps_s, taps_ac, mode_s, mode_ac, memory)
}

// A run call on a state that a call returned, or on any other numbers.
#[unsafe(no_mangle)]
pub extern "C" fn more1090_run(
    state: FlatState,
    mode_s: &[f32],
    mode_ac: &[f32],
    memory: &mut [f32],
    draws: &[u8],
    noise: &[f32],
    output: &mut [f32],
    records: &mut [u8],
) -> FlatRan
    ensures { record { ran = result; memory = memory.new; output = output.new; records = records.new } ≡ flat_run_left state mode_s.now mode_ac.now memory.old draws.now noise.now output.old records.old }
{
    more1090_generator::more1090_run(
        state, mode_s, mode_ac, memory, draws, noise, output, records,
    )
}

// What a part of the draws will use, the time before its first draw given: 0.0, or the time at which the part before ran out.
#[unsafe(no_mangle)]
pub extern "C" fn more1090_booking_part(
    time: f64,
    settings: &[u8],
    taps_s: &[f32],
    taps_ac: &[f32],
    draws: &[u8],
) -> FlatBooking
    ensures { result ≡ booking_flat (booking_of taps_s.now taps_ac.now time settings.now draws.now) }
{
    more1090_booking::more1090_booking_part(time, settings, taps_s, taps_ac, draws)
}

// What a run of these settings, filters and draws will use.
#[unsafe(no_mangle)]
pub extern "C" fn more1090_booking(
    settings: &[u8],
    taps_s: &[f32],
    taps_ac: &[f32],
    draws: &[u8],
) -> FlatBooking
    ensures { result ≡ booking_flat (booking_of taps_s.now taps_ac.now zero64 settings.now draws.now) }
{
    more1090_booking::more1090_booking(settings, taps_s, taps_ac, draws)
}

// One reply alone (SPECIFICATION 14).
#[unsafe(no_mangle)]
pub extern "C" fn more1090_single(
    settings: &[u8],
    taps_s: &[f32],
    taps_ac: &[f32],
    draw: &[u8],
    noise: &[f32],
    output: &mut [f32],
) -> FlatSingle
    ensures { (result ≡ single_flat (answer_of (single_run settings.now taps_s.now taps_ac.now draw.now noise.now (length output.old)))) × (output.new ≡ single_output settings.now taps_s.now taps_ac.now draw.now noise.now output.old) }
{
    more1090_single::more1090_single(settings, taps_s, taps_ac, draw, noise, output)
}

// The parity of bytes, however many.
#[unsafe(no_mangle)]
pub extern "C" fn more1090_parity(bytes: &[u8]) -> u32
    ensures { result ≡ parity_of bytes.now }
{
    more1090_reply::more1090_parity(bytes)
}

// The change in parity of a message whose bit at a place is flipped, places counted back from 0 at the last bit; 0 above 111.
#[unsafe(no_mangle)]
pub extern "C" fn more1090_parity_change(place: u64) -> u32
    ensures { result ≡ change_at place }
{
    more1090_reply::more1090_parity_change(place)
}

// The place whose flipped bit changes the parity so, or 2^64 - 1 for none.
#[unsafe(no_mangle)]
pub extern "C" fn more1090_flipped_bit(change: u32) -> u64
    ensures { result ≡ place_number (place_of change) }
{
    more1090_reply::more1090_flipped_bit(change)
}

// The class of message bytes, however many: its type's number, 7 for TIS-B, 255 for none.
#[unsafe(no_mangle)]
pub extern "C" fn more1090_class(message: &[u8]) -> u8
    ensures { result ≡ class_number (class_of_bytes message.now) }
{
    more1090_reply::more1090_class(message)
}

// Which interrogator message bytes, however many, answer: the kind, 0 for none, 1 for an II code, 2 for an SI code, 3 for unassigned; and the code, 0 where there is none.
#[unsafe(no_mangle)]
pub extern "C" fn more1090_interrogator(message: &[u8], code: &mut u32) -> u32
    ensures { (result ≡ kind_number (interrogator_of message.now)) × (code.new ≡ code_number (interrogator_of message.now)) }
{
    more1090_reply::more1090_interrogator(message, code)
}

// The amplitude of a level in tenths of a decibel. Answers 0, or 13 above 200.0 dB, and then leaves the amplitude as it was.
#[unsafe(no_mangle)]
pub extern "C" fn more1090_level(tenths: u64, amplitude: &mut f32) -> u64
    ensures { (result ≡ refusal_of (level_of tenths)) × (amplitude.new ≡ amplitude_left (level_of tenths) amplitude.old) }
{
    more1090_reply::more1090_level(tenths, amplitude)
}

// Records of 66 bytes as pages of 4,380 bytes, from the start of out on.
#[unsafe(no_mangle)]
pub extern "C" fn more1090_pages(records: &[u8], out: &mut [u8]) -> FlatPages
    ensures { (result ≡ flat_answer (pages_answer records.now (length out.old))) × (out.new ≡ pages_left records.now out.old) }
{
    more1090_records::more1090_pages(records, out)
}

// The fields of a line of 72 bytes; its message goes to message, zeros behind it.
#[unsafe(no_mangle)]
pub extern "C" fn more1090_page_line(line: &[u8], message: &mut [u8; 14]) -> FlatLine
    ensures { (result ≡ flat_line (fields_of line.now)) × (message.new ≡ line_message (fields_of line.now)) }
{
    more1090_records::more1090_page_line(line, message)
}

// How many bytes of a tape stand before its noise, as far as the first ones say.
#[unsafe(no_mangle)]
pub extern "C" fn more1090_tape_head_length(first: &[u8]) -> u64
    ensures { result ≡ head_wanted first.now }
{
    more1090_tape::more1090_tape_head_length(first)
}

// Opens the run of a tape, of which all before its noise is passed. Refused, it changes no buffer.
#[unsafe(no_mangle)]
pub extern "C" fn more1090_tape_open(
    head: &[u8],
    mode_s: &mut [f32],
    mode_ac: &mut [f32],
    memory: &mut [f32],
) -> FlatBeginning
    ensures { record { beginning = result; left = record { mode_s = mode_s.new; mode_ac = mode_ac.new; memory = memory.new } } ≡ open_left head.now (record { mode_s = mode_s.old; mode_ac = mode_ac.old; memory = memory.old }) }
{
    more1090_tape::more1090_tape_open(head, mode_s, mode_ac, memory)
}

// Feeds the run of a tape a chunk of noise, given all its draws and records.
#[unsafe(no_mangle)]
pub extern "C" fn more1090_tape_feed(
    tape: FlatTape,
    mode_s: &[f32],
    mode_ac: &[f32],
    memory: &mut [f32],
    draws: &[u8],
    noise: &[f32],
    output: &mut [f32],
    records: &mut [u8],
) -> FlatTape
    ensures { record { tape = result; memory = memory.new; output = output.new; records = records.new } ≡ flat_fed mode_s.now mode_ac.now draws.now noise.now (record { tape = tape; memory = memory.old; output = output.old; records = records.old }) }
{
    more1090_tape::more1090_tape_feed(tape, mode_s, mode_ac, memory, draws, noise, output, records)
}

// How a tape ends, by how its noise section does: 0 whole, 1 with bytes left over, any other number short.
#[unsafe(no_mangle)]
pub extern "C" fn more1090_tape_ending(tape: FlatTape, end: u64) -> FlatEnding
    ensures { result ≡ flat_ending tape end }
{
    more1090_tape::more1090_tape_ending(tape, end)
}

// What is printed of a tape that ends so, with the records of its run; its length.
#[unsafe(no_mangle)]
pub extern "C" fn more1090_tape_text(
    ending: FlatEnding,
    records: &[u8],
    text: &mut [u8; TEXT_LEN],
) -> u64
    ensures { (result ≡ length (flat_text ending records.now)) × (text.new ≡ overwritten text.old 0 (flat_text ending records.now)) }
{
    more1090_tape::more1090_tape_text(ending, records, text)
}

// A log of 23-byte entries against records of 66 bytes: the counts, and each entry's record and each record's entry by their indices. A refusal writes to neither list.
#[unsafe(no_mangle)]
pub extern "C" fn more1090_compare_log(
    log: &[u8],
    records: &[u8],
    tolerance: u64,
    partners: &mut [u64],
    owners: &mut [u64],
) -> FlatCompared
    ensures { record { compared = result; partners = partners.new; owners = owners.new } ≡ flat_comparison log.now records.now tolerance partners.old owners.old }
{
    more1090_records::more1090_compare_log(log, records, tolerance, partners, owners)
}

// Opens a rack: a memory of 8,190 f32, and a delay and a gain for each feed. Refusal 0 is none.
#[unsafe(no_mangle)]
pub extern "C" fn more1090_rack_open(memory: &mut [f32], delays: &[u64], gains: &[f32]) -> Answered
    ensures { record { answered = result; memory = memory.new } ≡ open_flat memory.old delays.now gains.now }
{
    more1090_rack::more1090_rack_open(memory, delays, gains)
}

// A call on a rack: samples to read, and as much room for each feed, feed 0's first. Refusal 0 is none.
#[unsafe(no_mangle)]
pub extern "C" fn more1090_rack_run(
    rack: Rack,
    memory: &mut [f32],
    samples: &[f32],
    room: &mut [f32],
) -> Answered
    ensures { record { answered = result; memory = memory.new; room = room.new } ≡ run_flat rack memory.old (record { samples = samples.entry.now; room = room.old }) }
{
    more1090_rack::more1090_rack_run(rack, memory, samples, room)
}

// Stores a run between two calls, with the rack behind it where a rack's memory is lent. Refusal 0 is none.
#[unsafe(no_mangle)]
pub extern "C" fn more1090_save(
    state: FlatState,
    mode_s: &[f32],
    mode_ac: &[f32],
    memory: &[f32],
    rack: Rack,
    rack_memory: &[f32],
    bytes: &mut [u8],
) -> u64
    ensures { record { refusal = result; bytes = bytes.new } ≡ save_flat state mode_s.now mode_ac.now memory.now rack rack_memory.now bytes.old }
{
    more1090_bytes::more1090_save(state, mode_s, mode_ac, memory, rack, rack_memory, bytes)
}

// Reads a run back. Refused, it changes no buffer, and state and rack are all zero.
#[unsafe(no_mangle)]
pub extern "C" fn more1090_restore(
    bytes: &[u8],
    mode_s: &mut [f32],
    mode_ac: &mut [f32],
    memory: &mut [f32],
    rack_memory: &mut [f32],
) -> FlatRestored
    ensures { record { answered = result; lent = record { mode_s = mode_s.new; mode_ac = mode_ac.new; memory = memory.new; rack_memory = rack_memory.new } } ≡ restore_flat bytes.now (record { mode_s = mode_s.old; mode_ac = mode_ac.old; memory = memory.old; rack_memory = rack_memory.old }) }
{
    more1090_bytes::more1090_restore(bytes, mode_s, mode_ac, memory, rack_memory)
}
