// Replies: their types and kinds; making one by type, and the first field at fault of what it is made of; the class of a message, TIS-B or a type by its length and format; the interrogator that it answers, by the overlay on its parity; and the numbers of both, as they cross to C.
// Each function is equal to a definition of specs/ on every input.
#![tactic(auto)]

ghost use Rattle.std.specs.Prelude.{◌≡◌, [], ◌∷◌, ◌+◌, ◌*◌, ◌/◌, ◌%◌, ◌<◌, get_or, take, drop, true, length};
ghost use Rattle.message.specs.Types.{type_numbered, type_number};
ghost use Rattle.message.specs.Making.{field_fault, filled, reply_of, made};
ghost use Rattle.mode_s.specs.Parity.{with_parity};
ghost use Rattle.std.specs.Option.{option_or};
ghost use Rattle.message.specs.Classing.{eleven_class, short_class, long_class, is_tis_b, relay_class, type_class, class_of, class_of_bytes, class_number};
ghost use Rattle.message.specs.Interrogators.{code_of, overlay_of, interrogator_of, kind_number, code_number};

// How a reply is sent, and how many of its 14 bytes are used: 7, 14 or 2.
#[derive(Clone, Copy)]
pub enum ReplyKind {
    Short,
    Long,
    ModeAc,
}

// A reply's bytes, zero filled, beside its kind. Mode A/C is its data, low byte first, with SPI as bit 12.
#[derive(Clone, Copy)]
pub struct Reply {
    pub kind: ReplyKind,
    pub bytes: [u8; 14],
}

// The message types, with the numbers that the specification gives them.
#[derive(Clone, Copy)]
pub enum MessageType {
    ExtendedSquitter = 0,
    AcquisitionSquitter = 1,
    ShortAp = 2,
    AllCallReply = 3,
    LongAp = 4,
    MilitaryExtendedSquitter = 5,
    ModeAc = 6,
}

// The fields of a draw that a reply is made of.
#[derive(Clone, Copy)]
pub struct Picks {
    pub format: u8,
    pub capability: u8,
    pub overlay: u8,
    pub bytes: [u8; 14],
    pub data: u16,
    pub spi: u8,
}

// The type of a number, none where no type has it: no `TryFrom`, whose error would say nothing more.
#[tactic(auto, using(crate::proofs::Numbers::none_above), unfolding(crate::specs::Types::type_numbered))]
pub fn message_type(n: u8) -> Option<MessageType>
    ensures { result ≡ type_numbered n }
{
    match n {
        0 => Some(MessageType::ExtendedSquitter),
        1 => Some(MessageType::AcquisitionSquitter),
        2 => Some(MessageType::ShortAp),
        3 => Some(MessageType::AllCallReply),
        4 => Some(MessageType::LongAp),
        5 => Some(MessageType::MilitaryExtendedSquitter),
        6 => Some(MessageType::ModeAc),
        _ => None,
    }
}

// The number of a type.
#[tactic(auto, unfolding(crate::specs::Types::type_number))]
pub fn type_number(t: MessageType) -> u8
    ensures { result ≡ type_number t }
{
    t as u8
}

// The first field at fault; fields that the type does not use are ignored.
#[tactic(auto, unfolding(crate::specs::Making::field_fault, crate::specs::Making::formats, crate::specs::Making::subfields, crate::specs::Making::format_of, crate::specs::Making::overlay_fits, crate::specs::Making::mode_ac_fits))]
pub fn field_fault(t: MessageType, p: Picks) -> Option<u64>
    ensures { result ≡ field_fault t p }
{
    match t {
        MessageType::ExtendedSquitter => {
            // The format picked decides the list of the second pick.
            let picks = if p.format == 1 { 6 } else { 5 };
            (p.format >= 2)
                .then_some(7)
                .or((p.capability >= picks).then_some(8))
        }
        MessageType::AcquisitionSquitter => (p.capability >= 5).then_some(8),
        MessageType::ShortAp => (p.format >= 3).then_some(7),
        MessageType::AllCallReply => (p.capability >= 5)
            .then_some(8)
            .or((p.overlay == 0 || p.overlay >= 128).then_some(9)),
        MessageType::LongAp => (p.format >= 11).then_some(7),
        MessageType::MilitaryExtendedSquitter => None,
        MessageType::ModeAc => (p.data >= 4096)
            .then_some(11)
            .or((p.spi >= 2).then_some(12)),
    }
}

// The bytes of a parity, high byte first.
fn parity_bytes(p: u32) -> [u8; 3]
    ensures { result ≡ p / 65536 % 256 ∷ p / 256 % 256 ∷ p % 256 ∷ [] }
{
    let [_, high, middle, low] = p.to_be_bytes();
    [high, middle, low]
}

// A long message: 11 bytes, the first one given, and their parity.
#[tactic(auto, using(crate::proofs::Bytes::parity_set))]
fn long_with_parity(first: u8, mut bytes: [u8; 14]) -> Reply
    ensures { result ≡ record { kind = ReplyKind.Long; bytes = with_parity (first ∷ take 10 (drop 1 bytes)) 0 } }
{
    bytes[0] = first;
    let [high, middle, low] = parity_bytes(mode_s::parity(&bytes[..11]));
    bytes[11] = high;
    bytes[12] = middle;
    bytes[13] = low;
    Reply {
        kind: ReplyKind::Long,
        bytes,
    }
}

// A short message: four bytes and their parity, the overlay on the last byte.
#[tactic(auto, using(crate::proofs::Replies::sealed_reply))]
fn short_with_parity(head: [u8; 4], overlay: u8) -> Reply
    ensures { result ≡ record { kind = ReplyKind.Short; bytes = filled (with_parity head overlay) } }
{
    let [high, middle, low] = parity_bytes(mode_s::parity(&head));
    let [first, second, third, fourth] = head;
    Reply {
        kind: ReplyKind::Short,
        bytes: [
            first,
            second,
            third,
            fourth,
            high,
            middle,
            overlay ^ low,
            0,
            0,
            0,
            0,
            0,
            0,
            0,
        ],
    }
}

// Each maker asks that its own fields are in range, for each type another fact, which no one struct would carry.
#[tactic(auto, using(crate::proofs::InRange::extended_format, crate::proofs::InRange::control_pick, crate::proofs::InRange::capability_pick, crate::proofs::Replies::control_reply, crate::proofs::Replies::capability_reply))]
fn extended_squitter(p: Picks) -> Reply
    requires { field_fault MessageType.ExtendedSquitter p ≡ None }
    ensures { result ≡ reply_of MessageType.ExtendedSquitter p }
{
    let df = mode_s::DF_EXTENDED_SQUITTER[p.format as usize];
    let low = if df == 18 {
        mode_s::DF18_CF_VALID[p.capability as usize]
    } else {
        mode_s::CA_VALID[p.capability as usize]
    };
    long_with_parity(df * 8 + low, p.bytes)
}

#[tactic(auto, using(crate::proofs::InRange::acquisition_capability, crate::proofs::Replies::acquisition_reply))]
fn acquisition_squitter(p: Picks) -> Reply
    requires { field_fault MessageType.AcquisitionSquitter p ≡ None }
    ensures { result ≡ reply_of MessageType.AcquisitionSquitter p }
{
    let first = mode_s::DF_ACQUISITION_SQUITTER * 8 + mode_s::CA_VALID[p.capability as usize];
    short_with_parity([first, p.bytes[1], p.bytes[2], p.bytes[3]], 0)
}

#[tactic(auto, using(crate::proofs::InRange::all_call_capability), unfolding(crate::specs::Making::reply_of, crate::specs::Making::kind_of, crate::specs::Making::message_bytes, crate::specs::Making::byte0, crate::specs::Making::format_of, crate::specs::Making::formats, crate::specs::Making::subfields, crate::specs::Making::low_bits))]
fn all_call_reply(p: Picks) -> Reply
    requires { field_fault MessageType.AllCallReply p ≡ None }
    ensures { result ≡ reply_of MessageType.AllCallReply p }
{
    let first = mode_s::DF_ACQUISITION_SQUITTER * 8 + mode_s::CA_VALID[p.capability as usize];
    short_with_parity([first, 0, 0, 0], p.overlay)
}

#[tactic(auto, using(crate::proofs::InRange::short_ap_format, crate::proofs::Replies::short_ap_reply))]
fn short_ap(p: Picks) -> Reply
    requires { field_fault MessageType.ShortAp p ≡ None }
    ensures { result ≡ reply_of MessageType.ShortAp p }
{
    let b = p.bytes;
    let first = mode_s::DF_SHORT_AP[p.format as usize] * 8 + b[0] % 8;
    Reply {
        kind: ReplyKind::Short,
        bytes: [
            first, b[1], b[2], b[3], b[4], b[5], b[6], 0, 0, 0, 0, 0, 0, 0,
        ],
    }
}

// A long message without parity: the draw's bytes behind a first byte of the format given.
fn long_without_parity(df: u8, mut bytes: [u8; 14]) -> Reply
    requires { df < 32 }
    ensures { result ≡ record { kind = ReplyKind.Long; bytes = (df * 8 + get_or bytes 0 0 % 8) ∷ take 13 (drop 1 bytes) } }
{
    bytes[0] = df * 8 + bytes[0] % 8;
    Reply {
        kind: ReplyKind::Long,
        bytes,
    }
}

#[tactic(auto, using(crate::proofs::InRange::long_ap_format, crate::proofs::Replies::long_ap_reply))]
fn long_ap(p: Picks) -> Reply
    requires { field_fault MessageType.LongAp p ≡ None }
    ensures { result ≡ reply_of MessageType.LongAp p }
{
    long_without_parity(mode_s::DF_LONG_AP[p.format as usize], p.bytes)
}

#[tactic(auto, using(crate::proofs::Replies::military_reply))]
fn military_extended_squitter(p: Picks) -> Reply
    ensures { result ≡ reply_of MessageType.MilitaryExtendedSquitter p }
{
    long_without_parity(mode_s::DF_MILITARY_EXTENDED_SQUITTER, p.bytes)
}

#[tactic(auto, using(crate::proofs::InRange::data_below, crate::proofs::InRange::spi_below), unfolding(crate::specs::Making::reply_of, crate::specs::Making::kind_of, crate::specs::Making::message_bytes, crate::specs::Making::filled))]
fn mode_ac(p: Picks) -> Reply
    requires { field_fault MessageType.ModeAc p ≡ None }
    ensures { result ≡ reply_of MessageType.ModeAc p }
{
    let low = (p.data % 256) as u8;
    let high = (p.data / 256) as u8;
    Reply {
        kind: ReplyKind::ModeAc,
        bytes: [low, high + 16 * p.spi, 0, 0, 0, 0, 0, 0, 0, 0, 0, 0, 0, 0],
    }
}

// The reply of a type and of fields in range.
fn reply_of(t: MessageType, p: Picks) -> Reply
    requires { field_fault t p ≡ None }
    ensures { result ≡ reply_of t p }
{
    match t {
        MessageType::ExtendedSquitter => extended_squitter(p),
        MessageType::AcquisitionSquitter => acquisition_squitter(p),
        MessageType::ShortAp => short_ap(p),
        MessageType::AllCallReply => all_call_reply(p),
        MessageType::LongAp => long_ap(p),
        MessageType::MilitaryExtendedSquitter => military_extended_squitter(p),
        MessageType::ModeAc => mode_ac(p),
    }
}

// The reply of a type, or the first field at fault, by its place among a draw's fields.
// A place and no refusal: which refusal it is, a caller says.
#[tactic(auto, unfolding(crate::specs::Making::made, crate::specs::Making::made_where))]
pub fn make(t: MessageType, p: Picks) -> Result<Reply, u64>
    ensures { result ≡ made t p }
{
    match field_fault(t, p) {
        None => Ok(reply_of(t, p)),
        Some(field) => Err(field),
    }
}

// What classing answers. TIS-B is no type: no draw is of it, no rate is its, and no record holds it.
// An enum of its own and no Option: TIS-B is a class by name, and a reply that has no class is `None`.
#[derive(Clone, Copy)]
pub enum Class {
    OfType(MessageType),
    TisB,
}

// An acquisition squitter's parity is right; an all-call reply's has an overlay.
#[tactic(auto, unfolding(crate::specs::Classing::eleven_class))]
fn eleven_class(m: &[u8]) -> MessageType
    ensures { result ≡ eleven_class m.now }
{
    if mode_s::parity(m) == 0 {
        MessageType::AcquisitionSquitter
    } else {
        MessageType::AllCallReply
    }
}

#[tactic(auto, unfolding(crate::specs::Classing::short_class, crate::specs::Making::formats))]
fn short_class(df: u8, m: &[u8]) -> Option<MessageType>
    ensures { result ≡ short_class df m.now }
{
    match df {
        0 | 4 | 5 => Some(MessageType::ShortAp),
        11 => Some(eleven_class(m)),
        _ => None,
    }
}

// By the format, which is the high five bits of the first byte.
#[tactic(auto, unfolding(crate::specs::Classing::long_class, crate::specs::Making::formats))]
fn long_class(first: u8) -> Option<MessageType>
    ensures { result ≡ long_class (first / 8) }
{
    match first / 8 {
        17 | 18 => Some(MessageType::ExtendedSquitter),
        19 => Some(MessageType::MilitaryExtendedSquitter),
        16 | 20 | 21 | 24.. => Some(MessageType::LongAp),
        _ => None,
    }
}

// The control of DF 18 is the low three bits of the first byte.
#[tactic(auto, unfolding(crate::specs::Classing::is_tis_b))]
fn is_tis_b(first: u8) -> bool
    ensures { result ≡ is_tis_b first }
{
    first / 8 == 18 && matches!(first % 8, 2 | 3 | 5)
}

#[tactic(auto, unfolding(crate::specs::Classing::relay_class))]
fn relay_class(first: u8) -> Option<Class>
    ensures { result ≡ relay_class true first }
{
    is_tis_b(first).then_some(Class::TisB)
}

// A long message, by both rules: both hold for a TIS-B message, so their order counts.
#[tactic(auto, unfolding(crate::specs::Classing::type_class))]
fn long_classed(first: u8) -> Option<Class>
    ensures { result ≡ option_or (relay_class true first) (type_class (long_class (first / 8))) }
{
    relay_class(first).or(long_class(first).map(Class::OfType))
}

// The class of a reply.
#[tactic(auto, unfolding(crate::specs::Classing::class_of, crate::specs::Classing::class_by, crate::specs::Classing::is_long, crate::specs::Classing::kind_class, crate::specs::Classing::relay_class, crate::specs::Classing::type_class))]
pub fn from_message(r: Reply) -> Option<Class>
    ensures { result ≡ class_of r }
{
    let first = r.bytes[0];
    match r.kind {
        ReplyKind::Short => short_class(first / 8, &r.bytes[..7]).map(Class::OfType),
        ReplyKind::Long => long_classed(first),
        ReplyKind::ModeAc => Some(Class::OfType(MessageType::ModeAc)),
    }
}

// The class of message bytes, however many.
#[tactic(auto, unfolding(crate::specs::Classing::class_of_bytes, crate::specs::Classing::class_by, crate::specs::Classing::is_long, crate::specs::Classing::kind_class, crate::specs::Classing::relay_class, crate::specs::Classing::type_class))]
pub fn class_of_bytes(m: &[u8]) -> Option<Class>
    ensures { result ≡ class_of_bytes m.now }
{
    match m.len() {
        7 => short_class(m[0] / 8, m).map(Class::OfType),
        14 => long_classed(m[0]),
        2 => Some(Class::OfType(MessageType::ModeAc)),
        _ => None,
    }
}

// An II code, an SI code, or an overlay that is neither.
#[derive(Clone, Copy)]
pub enum Interrogator {
    Ii(u32),
    Si(u32),
    Unassigned,
}

// The Annex's table of overlays.
#[tactic(auto, unfolding(crate::specs::Interrogators::code_of, crate::specs::Interrogators::within))]
fn code(o: u32) -> Interrogator
    ensures { result ≡ code_of o }
{
    match o {
        0..=15 => Interrogator::Ii(o),
        17..=79 => Interrogator::Si(o - 16),
        _ => Interrogator::Unassigned,
    }
}

// The last three bytes, exclusive or, the parity of the first four: all 24 bits of it.
#[tactic(auto, unfolding(crate::specs::Interrogators::overlay_of, crate::specs::Interrogators::last_three))]
fn overlay(m: &[u8]) -> u32
    requires { length m.now ≡ 7 }
    ensures { result ≡ overlay_of m.now }
{
    let last = u32::from_be_bytes([0, m[4], m[5], m[6]]);
    mode_s::parity(&m[..4]) ^ last
}

// The reading of bytes, however many: by their number and the format, and not by the class. A message that answers no interrogator has none.
#[tactic(auto, unfolding(crate::specs::Interrogators::interrogator_of))]
pub fn interrogator_of_bytes(m: &[u8]) -> Option<Interrogator>
    ensures { result ≡ interrogator_of m.now }
{
    if m.len() == 7 && m[0] / 8 == 11 {
        Some(code(overlay(m)))
    } else {
        None
    }
}

// By a match, here and below: the numbers are those of the C interface, and two cases may share one.
// The number of a class: its type's, 7 for TIS-B, 255 for none.
#[tactic(auto, unfolding(crate::specs::Classing::class_number))]
pub fn class_number(c: Option<Class>) -> u8
    ensures { result ≡ class_number c }
{
    match c {
        Some(Class::OfType(t)) => type_number(t),
        Some(Class::TisB) => 7,
        None => 255,
    }
}

// The kind of a reading: 0 for none, 1 for an II code, 2 for an SI code, 3 for an overlay that is unassigned.
#[tactic(auto, unfolding(crate::specs::Interrogators::kind_number))]
pub fn kind_number(i: Option<Interrogator>) -> u32
    ensures { result ≡ kind_number i }
{
    match i {
        Some(Interrogator::Ii(_)) => 1,
        Some(Interrogator::Si(_)) => 2,
        Some(Interrogator::Unassigned) => 3,
        None => 0,
    }
}

// Its code, 0 where it has none.
#[tactic(auto, unfolding(crate::specs::Interrogators::code_number))]
pub fn code_number(i: Option<Interrogator>) -> u32
    ensures { result ≡ code_number i }
{
    match i {
        Some(Interrogator::Ii(ii)) => ii,
        Some(Interrogator::Si(si)) => si,
        Some(Interrogator::Unassigned) => 0,
        None => 0,
    }
}
