// The numbers that follow from the samples per pulse, and the bytes of draws and records. specs/Rate has the former.
#![tactic(auto, using(crate::proofs::Settings::either_cases), unfolding(crate::specs::Setting::either))]

ghost use Rattle.std.specs.Prelude.{◌≡◌, ◌≤◌, ◌%◌};
ghost use Rattle.constants.specs.Setting.{per_pulse, setting_from, either, by_mode};
ghost use Rattle.constants.specs.Rate.{sample_rate, branches, prototype_length, mode_s_taps, mode_ac_taps, reply_limit, hold_back, ring_slots, working_memory};

// The mode of a reply: each has a lowpass and a prototype of its own.
#[derive(Clone, Copy)]
pub enum Mode {
    S,
    Ac,
}

// Samples per pulse, the setting of a run.
#[derive(Clone, Copy)]
pub enum SamplesPerPulse {
    Four,
    Eight,
}

impl SamplesPerPulse {
    // The first of two numbers at 4, and the second at 8.
    pub fn either(self, four: u64, eight: u64) -> u64
        ensures { result ≡ either self four eight }
    {
        match self {
            SamplesPerPulse::Four => four,
            SamplesPerPulse::Eight => eight,
        }
    }

    // The setting that a number stands for, where nothing is refused: any number but 8 stands for 4.
    pub fn from_number(n: u64) -> SamplesPerPulse
        ensures { result ≡ setting_from n }
    {
        match n {
            8 => SamplesPerPulse::Eight,
            _ => SamplesPerPulse::Four,
        }
    }

    // The setting as a number.
    pub fn number(self) -> u64
        ensures { (result ≡ per_pulse self) × (4 ≤ result) × (result ≤ 8) }
    {
        self.either(4, 8)
    }

    // Samples a second.
    pub fn sample_rate(self) -> u64
        ensures { (result ≡ sample_rate (per_pulse self)) × (8000000 ≤ result) }
    {
        self.either(8000000, 16000000)
    }

    // Branches of a filterbank.
    pub fn branches(self) -> usize
        ensures { (result ≡ branches (per_pulse self)) × (256 ≤ result) × (result ≤ 512) }
    {
        self.either(256, 512) as usize
    }

    // Values of a prototype.
    pub fn prototype_len(self) -> usize
        ensures { (result ≡ prototype_length (per_pulse self)) × (result ≤ 3584) }
    {
        self.either(1792, 3584) as usize
    }

    // Taps of the lowpass of a mode.
    #[tactic(auto, using(crate::proofs::Settings::either_cases), unfolding(crate::specs::Setting::either, crate::specs::Setting::by_mode))]
    pub fn taps_len(self, mode: Mode) -> usize
        ensures { result ≡ by_mode mode (mode_s_taps (per_pulse self)) (mode_ac_taps (per_pulse self)) }
    {
        match mode {
            Mode::S => self.either(1486, 2971) as usize,
            Mode::Ac => self.either(1515, 3029) as usize,
        }
    }

    // The most samples that a reply adds to.
    pub fn reply_limit(self) -> u64
        ensures { (result ≡ reply_limit (per_pulse self)) × (result ≤ 2187) }
    {
        self.either(1094, 2187)
    }

    // Samples that are held back.
    pub fn hold_back(self) -> u64
        ensures { (result ≡ hold_back (per_pulse self)) × (result ≤ 64) }
    {
        self.either(32, 64)
    }

    // Slots of the ring in working memory: the most samples of a reply, and those held back.
    pub fn ring_slots(self) -> usize
        ensures { (result ≡ ring_slots (per_pulse self)) × (1126 ≤ result) × (result ≤ 2251) }
    {
        self.either(1126, 2251) as usize
    }

    // The slot of a sample of the run.
    pub fn slot_of(self, sample: u64) -> usize
        ensures { result ≡ sample % ring_slots (per_pulse self) }
    {
        match self {
            SamplesPerPulse::Four => (sample % 1126) as usize,
            SamplesPerPulse::Eight => (sample % 2251) as usize,
        }
    }

    // Working memory, in f32.
    pub fn memory_len(self) -> usize
        ensures { result ≡ working_memory (per_pulse self) }
    {
        self.either(2252, 4502) as usize
    }
}

// The lengths at 8 samples per pulse, for arrays that hold what either setting needs: a constant's value may not call a function, so `SamplesPerPulse::Eight` cannot give them.

// Values of a prototype.
pub const MAX_PROTOTYPE_LEN: usize = 3584;

// Working memory, in f32.
pub const MAX_MEMORY_LEN: usize = 4502;

// Pulse positions of the longest reply.
pub const MAX_POSITIONS: usize = 240;

// What a noise value is multiplied by, 2^-10.
pub const NOISE_SCALE: f32 = 0.0009765625;

// Bytes of a draw and of a record.
pub const DRAW_LEN: usize = 65;

pub const RECORD_LEN: usize = 66;
