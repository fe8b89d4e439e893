// A record of 66 bytes. Each function is equal to a definition of specs/ on every input.
#![tactic(auto)]

ghost use Rattle.std.specs.Prelude.{◌≡◌, [], ◌∷◌, ◌+◌, ◌≤◌, ◌<◌, length};
ghost use Rattle.le_read.specs.LeBytes.{inside, overwritten};
ghost use Rattle.reply_record.specs.Record.{record_length, message_length, float_bytes, other_bytes, record_bytes, record_at};

use constants::RECORD_LEN;
use message::{Reply, ReplyKind};
use message_config::MessageConfig;

// The bytes of a message. A match: these are lengths, and no numbers of the kinds that a cast would give.
#[tactic(auto, unfolding(crate::specs::Record::message_length))]
fn message_length(kind: ReplyKind) -> u8
    ensures { result ≡ message_length kind }
{
    match kind {
        ReplyKind::Short => 7,
        ReplyKind::Long => 14,
        ReplyKind::ModeAc => 2,
    }
}

// The 14 bytes of a message.
#[tactic(auto, using(std::proofs::lemmas::Slice::overwrites), unfolding(le_read::specs::LeBytes::overwritten))]
fn put_bytes(d: &mut [u8], at: usize, b: [u8; 14])
    requires { at + 14 ≤ length d.old }
    ensures { d.new ≡ overwritten d.old at b }
{
    d[at..at + 14].copy_from_slice(&b);
}

// Offsets 0 to 39. There is room, so what `le_write::put` answers is not looked at.
fn put_floats(d: &mut [u8], at: usize, c: MessageConfig)
    requires { at + 40 ≤ length d.old }
    ensures { d.new ≡ overwritten d.old at (float_bytes c) }
{
    le_write::put(d, at, c.time);
    le_write::put(d, at + 8, c.cn0);
    le_write::put(d, at + 16, c.offset);
    le_write::put(d, at + 24, c.phase);
    le_write::put(d, at + 32, c.error);
}

// Offsets 40 to 65, with room as above. First sample, type and count are no struct: it would be made for this call and read once.
fn put_others(d: &mut [u8], at: usize, reply: Reply, first: u64, kind: u8, count: u16)
    requires { at + 26 ≤ length d.old }
    ensures { d.new ≡ overwritten d.old at (other_bytes reply first kind count) }
{
    le_write::put(d, at, first);
    d[at + 8] = kind;
    le_write::put(d, at + 9, count);
    d[at + 11] = message_length(reply.kind);
    put_bytes(d, at + 12, reply.bytes);
}

// The record of a message, written at an offset: its first sample, its type's number and its count of samples. False where it would run past the end: then nothing is written.
#[tactic(auto, using(crate::proofs::Overwritten::room))]
pub fn put(d: &mut [u8], at: usize, c: MessageConfig, first: u64, kind: u8, count: u16) -> bool
    ensures { (result ≡ inside record_length d.old at) × (d.new ≡ record_at d.old at (record_bytes c first kind count)) }
{
    if le_read::holds(d.len(), at, RECORD_LEN) {
        put_floats(d, at, c);
        put_others(d, at + 40, c.reply, first, kind, count);
        return true;
    }
    false
}
