// Parity, making and classing under C names, for the differential harness to call: each function only calls, turns an answer into numbers, and promises what it calls promises.
ghost use Rattle.std.specs.Prelude.{◌≡◌};
ghost use Rattle.mode_s.specs.Parity.{parity_of};
ghost use Rattle.message.specs.Types.{type_numbered};
ghost use Rattle.message.specs.Classing.{class_of, class_number};
ghost use Rattle.test_exports.specs.Replies.{kind_number, kind_numbered, picks_of, made_for, MadeNumbers, reply_with};

use message::{Picks, Reply, ReplyKind};

// A C name of its own, although it is but one call.
#[unsafe(no_mangle)]
pub extern "C" fn port_parity(bytes: &[u8]) -> u32
    ensures { result ≡ parity_of bytes.now }
{
    mode_s::parity(bytes)
}

#[tactic(auto, unfolding(crate::specs::Replies::made_for))]
fn make(n: u8, p: Picks) -> Result<Reply, u64>
    ensures { result ≡ made_for (type_numbered n) p }
{
    let t = message::message_type(n).ok_or(1u64)?;
    message::make(t, p)
}

// The numbers are this interface's own, in the order of the kinds.
#[tactic(auto, unfolding(crate::specs::Replies::kind_number))]
fn kind_number(k: ReplyKind) -> u8
    ensures { result ≡ kind_number k }
{
    k as u8
}

// The parameters are the C interface's. The field at fault, 0 for none; the reply's kind and its bytes.
#[tactic(auto, unfolding(crate::specs::Replies::picks_of, crate::specs::Replies::field_number, crate::specs::Replies::reply_made))]
#[unsafe(no_mangle)]
pub extern "C" fn port_make(
    n: u8,
    format: u8,
    capability: u8,
    overlay: u8,
    draw: &[u8; 14],
    data: u16,
    spi: u8,
    kind: &mut u8,
    out: &mut [u8; 14],
) -> u64
    ensures { MadeNumbers (made_for (type_numbered n) (picks_of format capability overlay draw.now «data» spi)) result kind.new out.new }
{
    let made = make(
        n,
        Picks {
            format,
            capability,
            overlay,
            bytes: *draw,
            data,
            spi,
        },
    );
    let (fault, reply) = match made {
        Ok(reply) => (0, reply),
        Err(field) => (
            field,
            Reply {
                kind: ReplyKind::Short,
                bytes: [0; 14],
            },
        ),
    };
    // An array field is read into a variable first: stored straight, the check does not cover the function.
    let bytes = reply.bytes;
    *out = bytes;
    *kind = kind_number(reply.kind);
    fault
}

// Kind 0 short, 1 long, else Mode A/C.
// By hand, since the kinds are `message`'s and the numbers this interface's own.
#[tactic(auto, unfolding(crate::specs::Replies::kind_numbered))]
pub fn kind_numbered(n: u8) -> ReplyKind
    ensures { result ≡ kind_numbered n }
{
    match n {
        0 => ReplyKind::Short,
        1 => ReplyKind::Long,
        _ => ReplyKind::ModeAc,
    }
}

// The number of the class, 255 for none.
#[tactic(auto, unfolding(crate::specs::Replies::reply_with))]
#[unsafe(no_mangle)]
pub extern "C" fn port_from_message(kind: u8, message: &[u8; 14]) -> u8
    ensures { result ≡ class_number (class_of (reply_with kind message.now)) }
{
    message::class_number(message::from_message(Reply {
        kind: kind_numbered(kind),
        bytes: *message,
    }))
}
