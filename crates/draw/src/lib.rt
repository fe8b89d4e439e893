// Draws: the fields of one, read from its 65 bytes, 0 standing for each byte that is missing; the first fault of several; and the message that a draw becomes at its time, without its reply's bytes and then with them.
// Each function is equal to a definition of specs/ on every input.
#![tactic(auto)]

ghost use Rattle.std.specs.Prelude.{◌≡◌};
ghost use Rattle.draw.specs.Draw.{draw_at, picks_at, bytes_at};
ghost use Rattle.draw.specs.Config.{time_after, type_drawn};
ghost use Rattle.message.specs.Types.{type_numbered};
ghost use Rattle.draw.specs.Fault.{type_fits, amplitude_fits, mode_ac_limit, clock_fits, parameter_fault, message_fault, draw_fault, first_fault};
ghost use Rattle.message.specs.Making.{kind_of};
ghost use Rattle.draw.specs.Pending.{pending_of, completed_by};

use constants::DRAW_LEN;
pub use le_read::byte_at;
use message::{MessageType, Picks, Reply, ReplyKind};
use message_config::MessageConfig;
use settings::{Distributions, MessagesPerSecond};

#[derive(Clone, Copy)]
pub struct Draw {
    pub gap: f64,
    // the byte of the draw, and no MessageType: a number that no type has is refused with the draw's place
    pub kind: u8,
    pub cn0: f64,
    pub amplitude: f32,
    pub carrier: f64,
    pub phase: f64,
    pub clock: f64,
    pub picks: Picks,
}

// The time of the draw at the start of the bytes.
#[tactic(auto, unfolding(crate::specs::Draw::draw_at, crate::specs::Config::time_after))]
pub fn time_after(before: f64, rest: &[u8]) -> f64
    ensures { result ≡ time_after before (draw_at rest.now) }
{
    before + le_read::number::<f64>(rest, 0)
}

#[tactic(auto, unfolding(crate::specs::Fault::type_fits))]
fn type_fits(rates: MessagesPerSecond, kind: u8) -> bool
    ensures { result ≡ type_fits rates kind }
{
    settings::rate_of(rates, u64::from(kind)) > 0.0
}

#[tactic(auto, unfolding(crate::specs::Fault::amplitude_fits))]
fn amplitude_fits(a: f32) -> bool
    ensures { result ≡ amplitude_fits a }
{
    a >= 0.0 && a <= 1048576.0
}

// The Mode A/C limit on the clock error, by the draw's byte for its type, which may name none.
#[tactic(auto, unfolding(crate::specs::Fault::mode_ac_limit), using(distributions::proofs::Literals::tenth_is))]
fn within_limit(kind: u8, e: f64) -> bool
    ensures { result ≡ mode_ac_limit kind e }
{
    kind != 6
        || floats::within(
            message_config::filter_clock_error(ReplyKind::ModeAc, e),
            0.1,
        )
}

#[tactic(auto, unfolding(crate::specs::Fault::clock_fits))]
fn clock_fits(all: Distributions, kind: u8, draw: f64) -> bool
    ensures { result ≡ clock_fits all kind draw }
{
    distributions::clock_draw_fits(all.clock, draw)
        && within_limit(kind, distributions::error_of(all.clock, draw))
}

// Fields 7 to 12.
#[tactic(auto, unfolding(crate::specs::Fault::message_fault))]
fn message_fault(d: Draw) -> Option<u64>
    ensures { result ≡ message_fault (type_numbered d.kind) d }
{
    let t = message::message_type(d.kind)?;
    message::field_fault(t, d.picks)
}

// Fields 4 to 12.
#[tactic(auto, unfolding(crate::specs::Fault::parameter_fault))]
fn parameter_fault(all: Distributions, d: Draw) -> Option<u64>
    ensures { result ≡ parameter_fault all d }
{
    if !distributions::offset_draw_fits(all.carrier, d.carrier) {
        return Some(4);
    }
    if !distributions::phase_draw_fits(all.phase, d.phase) {
        return Some(5);
    }
    if !clock_fits(all, d.kind, d.clock) {
        return Some(6);
    }
    message_fault(d)
}

// The first field of a draw that is out of range.
// A place and no refusal, since a fault is what is searched for; which refusal it is, its caller says.
#[tactic(auto, unfolding(crate::specs::Fault::draw_fault))]
pub fn field_fault(rates: MessagesPerSecond, all: Distributions, d: Draw) -> Option<u64>
    ensures { result ≡ draw_fault rates all d }
{
    if !distributions::finite_not_negative(d.gap) {
        return Some(0);
    }
    if !type_fits(rates, d.kind) {
        return Some(1);
    }
    if !floats::finite(d.cn0) {
        return Some(2);
    }
    if !amplitude_fits(d.amplitude) {
        return Some(3);
    }
    parameter_fault(all, d)
}

// The 14 bytes of a draw.
#[tactic(auto, unfolding(crate::specs::Draw::bytes_at), using(crate::proofs::Fields::bytes_are))]
fn message_bytes(s: &[u8]) -> [u8; 14]
    ensures { result ≡ bytes_at s.now 48 14 }
{
    std::array::from_fn(|i| byte_at(s, 48 + i))
}

// The picks of the draw at the start of the bytes.
#[tactic(auto, unfolding(crate::specs::Draw::picks_at))]
pub fn picks(s: &[u8]) -> Picks
    ensures { result ≡ picks_at s.now }
{
    Picks {
        format: byte_at(s, 45),
        capability: byte_at(s, 46),
        overlay: byte_at(s, 47),
        bytes: message_bytes(s),
        data: le_read::number::<u16>(s, 62),
        spi: byte_at(s, 64),
    }
}

// The draw at the start of the bytes.
#[tactic(auto, unfolding(crate::specs::Draw::draw_at))]
pub fn read(s: &[u8]) -> Draw
    ensures { result ≡ draw_at s.now }
{
    Draw {
        gap: le_read::number::<f64>(s, 0),
        kind: byte_at(s, 8),
        cn0: le_read::number::<f64>(s, 9),
        amplitude: le_read::number::<f32>(s, 17),
        carrier: le_read::number::<f64>(s, 21),
        phase: le_read::number::<f64>(s, 29),
        clock: le_read::number::<f64>(s, 37),
        picks: picks(s),
    }
}

// The first fault of the draws, by draw and field.
// A place and no refusal, since a fault is what is searched for; which refusal it is, its caller says.
#[tactic(auto, unfolding(crate::specs::Fault::first_fault), using(crate::proofs::Scan::goes_on, crate::proofs::Scan::stops, crate::proofs::Scan::ends, crate::proofs::Scan::part_is))]
pub fn first_fault(draws: &[u8], rates: MessagesPerSecond, all: Distributions) -> Option<(u64, u64)>
    ensures { result ≡ first_fault rates all draws.now }
{
    for k in 0..draws.len() / DRAW_LEN {
        let d = read(&draws[k * DRAW_LEN..]);
        if let Some(field) = field_fault(rates, all, d) {
            return Some((k as u64, field));
        }
    }
    None
}

// The type of a draw's byte, here and in `completed`: a draw that is not checked may have any byte, so it is no `MessageType`.
#[tactic(auto, unfolding(crate::specs::Config::type_drawn))]
fn type_drawn(kind: u8) -> MessageType
    ensures { result ≡ type_drawn (type_numbered kind) }
{
    message::message_type(kind).unwrap_or(MessageType::ModeAc)
}

#[tactic(auto, unfolding(message::specs::Making::kind_of))]
fn kind_of(t: MessageType) -> ReplyKind
    ensures { result ≡ kind_of t }
{
    match t {
        MessageType::ExtendedSquitter
        | MessageType::LongAp
        | MessageType::MilitaryExtendedSquitter => ReplyKind::Long,
        MessageType::AcquisitionSquitter | MessageType::ShortAp | MessageType::AllCallReply => {
            ReplyKind::Short
        }
        MessageType::ModeAc => ReplyKind::ModeAc,
    }
}

// The message of the draw at the start of the bytes, `last` being the time before it. A run call looks at a draw in several steps and adds it in one, so that its reply's bytes are 0 until they are made then (`completed`).
#[tactic(auto, unfolding(crate::specs::Pending::pending_of, crate::specs::Config::config_with, crate::specs::Config::kind_drawn, crate::specs::Config::error_drawn, crate::specs::Draw::draw_at))]
pub fn pending(all: Distributions, last: f64, rest: &[u8]) -> MessageConfig
    ensures { result ≡ pending_of all (time_after last (draw_at rest.now)) (draw_at rest.now) }
{
    let kind = kind_of(type_drawn(byte_at(rest, 8)));
    MessageConfig {
        time: time_after(last, rest),
        cn0: le_read::number::<f64>(rest, 9),
        offset: distributions::offset_of(all.carrier, le_read::number::<f64>(rest, 21)),
        phase: distributions::phase_of(all.phase, le_read::number::<f64>(rest, 29)),
        error: distributions::error_of(all.clock, le_read::number::<f64>(rest, 37)),
        reply: Reply {
            kind,
            bytes: [0; 14],
        },
    }
}

// The message with its reply's bytes, made from its draw's type and picks; zeros where a field is at fault. The kind is the byte of a draw, which may name no type.
#[tactic(auto, unfolding(crate::specs::Pending::completed_by, crate::specs::Config::bytes_drawn, crate::specs::Config::bytes_made))]
pub fn completed(c: MessageConfig, kind: u8, p: Picks) -> MessageConfig
    ensures { result ≡ completed_by c kind p }
{
    let bytes = match message::make(type_drawn(kind), p) {
        Ok(made) => made.bytes,
        Err(_) => [0; 14],
    };
    let reply = Reply { bytes, ..c.reply };
    MessageConfig { reply, ..c }
}
