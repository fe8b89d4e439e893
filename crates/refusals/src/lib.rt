// The refusals of the library's calls. specs/ gives the number and values of SPECIFICATION 3.1 for each, and the values as two numbers, for callers in C.
#![tactic(auto)]

ghost use Rattle.std.specs.Prelude.{◌≡◌};
ghost use Rattle.refusals.specs.Number.{number_of};
ghost use Rattle.refusals.specs.Flat.{values_flat};

#[derive(Clone, Copy, PartialEq, Eq)]
pub enum Refusal {
    // Nanoseconds out of range, or too long a duration.
    Duration,
    // The first rate that is negative or not finite.
    Rate(u64),
    // The rates' total is 0 or not finite.
    Total,
    // The first distribution of an unknown kind, or with a parameter out of range.
    Distribution(u64),
    // A filter list.
    Taps,
    // A prototype.
    Prototype,
    // The first draw at fault, and its first field at fault.
    Draw(u64, u64),
    // The index of the first noise value at fault.
    Noise(u64),
    // The length of a buffer.
    Length,
    // A Mode A/C reply's data or a digit of it.
    Reply,
    // A tape's sections, or a run of it that is not done.
    Tape,
    // The output or noise of one reply alone, of another length than its duration asks for.
    StretchLength,
    // A level above 200.0 dB.
    Level,
    // A trigger level out of range.
    TriggerLevel,
    // Samples per pulse other than 4 or 8.
    SamplesPerPulse,
    // A log out of order, or a length of a message in it.
    Log,
    // The number of feeds, or a delay or gain.
    Feeds,
    // The first record at fault.
    Record(u64),
}

impl Refusal {
    // The number (SPECIFICATION 3.1).
    #[tactic(auto, unfolding(crate::specs::Number::number_of))]
    pub fn number(self) -> u64
        ensures { result ≡ number_of self }
    {
        match self {
            Refusal::Duration => 1,
            Refusal::Rate(_) => 2,
            Refusal::Total => 3,
            Refusal::Distribution(_) => 4,
            Refusal::Taps => 5,
            Refusal::Prototype => 6,
            Refusal::Draw(_, _) => 7,
            Refusal::Noise(_) => 8,
            Refusal::Length => 9,
            Refusal::Reply => 10,
            Refusal::Tape => 11,
            Refusal::StretchLength => 12,
            Refusal::Level => 13,
            Refusal::TriggerLevel => 14,
            Refusal::SamplesPerPulse => 15,
            Refusal::Log => 16,
            Refusal::Feeds => 17,
            Refusal::Record(_) => 18,
        }
    }
}

// 0 where a refusal has no such value.
#[derive(Clone, Copy)]
pub struct Values {
    pub value: u64,
    pub field: u64,
}

#[tactic(auto, unfolding(crate::specs::Flat::values_flat, crate::specs::Number::values_of))]
pub fn values_of(q: Refusal) -> Values
    ensures { result ≡ values_flat q }
{
    match q {
        Refusal::Rate(value)
        | Refusal::Distribution(value)
        | Refusal::Noise(value)
        | Refusal::Record(value) => Values { value, field: 0 },
        Refusal::Draw(draw, field) => Values { value: draw, field },
        _ => Values { value: 0, field: 0 },
    }
}
