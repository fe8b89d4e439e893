// The pulse maps of Mode S and Mode A/C replies, how many samples a message lasts at the nominal clock rate, and the most that one can have.
#![tactic(auto)]

ghost use Rattle.std.specs.Prelude.{◌≡◌, ◌<◌, ◌≤◌};
ghost use Rattle.pulse_map.specs.ModeS.{byte_bit, mode_s_bits, mode_s_pulses};
ghost use Rattle.pulse_map.specs.ModeAC.{mode_ac_pulses};
ghost use Rattle.constants.specs.Rate.{required_samples, longest_pulses, reply_limit};
ghost use Rattle.constants.specs.Setting.{per_pulse};
ghost use Rattle.pulse_map.specs.Length.{mode_s_num_samples, mode_ac_num_samples};

use constants::{MAX_POSITIONS, SamplesPerPulse};

// Where pulses stand, one entry for each position of half a microsecond, and how many positions there are; none stands beyond them.
// An array with its length beside, and no `Vec`: replies are made in fixed memory, without a heap.
#[derive(Clone, Copy)]
pub struct Pulses {
    pub on: [bool; MAX_POSITIONS],
    pub len: usize,
}

// Bit k of a byte, highest first.
#[tactic(auto, unfolding(crate::specs::ModeS::byte_bit))]
fn bit(byte: u8, k: usize) -> usize
    requires { k < 8 }
    ensures { (result ≡ byte_bit byte k) × (result < 2) }
{
    (usize::from(byte) >> (7 - k)) % 2
}

#[tactic(auto, unfolding(crate::specs::ModeS::mode_s_bits))]
fn num_bits(long: bool) -> usize
    ensures { (result ≡ mode_s_bits long) × (result ≤ 112) }
{
    if long { 112 } else { 56 }
}

// The map of a Mode S message. `long` is the message's length, a value of the reply: no step is switched by it.
pub fn mode_s_pulses(bytes: [u8; 14], long: bool) -> Pulses
    ensures { result ≡ mode_s_pulses bytes long }
{
    let bits = num_bits(long);
    let mut on = [false; MAX_POSITIONS];
    on[0] = true;
    on[2] = true;
    on[7] = true;
    on[9] = true;
    for n in 0..bits {
        let second = 1 - bit(bytes[n / 8], n % 8);
        on[16 + 2 * n + second] = true;
    }
    Pulses {
        on,
        len: 16 + 2 * bits,
    }
}

// The map of a Mode A/C reply.
pub fn mode_ac_pulses(data: u16, spi: bool) -> Pulses
    ensures { result ≡ mode_ac_pulses «data» spi }
{
    let mut on = [false; MAX_POSITIONS];
    on[0] = true;
    for n in 0..12 {
        if mode_ac::bit_of(data, n) {
            on[mode_ac::position_of(n)] = true;
        }
    }
    on[42] = true;
    if spi {
        on[51] = true;
        return Pulses { on, len: 52 };
    }
    Pulses { on, len: 43 }
}

// The samples of a Mode S message at the nominal clock rate. Here and below the bool is what the reply has, a long message or a special pulse, and the numbers are its mode's own.
#[tactic(auto, unfolding(crate::specs::Length::mode_s_num_samples, crate::specs::ModeS::mode_s_length, crate::specs::ModeS::mode_s_bits, constants::specs::Setting::either))]
pub fn mode_s_num_samples(setting: SamplesPerPulse, long: bool) -> usize
    ensures { result ≡ mode_s_num_samples (per_pulse setting) long }
{
    if long {
        setting.either(960, 1920) as usize
    } else {
        setting.either(512, 1024) as usize
    }
}

// The samples of a Mode A/C reply at the nominal clock rate.
#[tactic(auto, unfolding(crate::specs::Length::mode_ac_num_samples, crate::specs::ModeAC::mode_ac_length, constants::specs::Setting::either))]
pub fn mode_ac_num_samples(setting: SamplesPerPulse, spi: bool) -> usize
    ensures { result ≡ mode_ac_num_samples (per_pulse setting) spi }
{
    if spi {
        setting.either(201, 402) as usize
    } else {
        setting.either(166, 333) as usize
    }
}

// The most samples that a number of pulses becomes at any clock rate.
#[tactic(auto, using(crate::proofs::Required::none, crate::proofs::Required::some, crate::proofs::Required::product_room))]
fn required_samples_for_apply(setting: SamplesPerPulse, num_pulses: u64) -> u64
    requires { num_pulses ≤ longest_pulses }
    ensures { result ≡ required_samples (per_pulse setting) num_pulses }
{
    if num_pulses == 0 {
        0
    } else {
        ((num_pulses + 6) * setting.number() * 10 + 8) / 9
    }
}

// The most samples of a reply at any clock rate: those of the longest message, of 240 pulses.
pub fn reply_limit(setting: SamplesPerPulse) -> u64
    ensures { result ≡ reply_limit (per_pulse setting) }
{
    required_samples_for_apply(setting, 240)
}
