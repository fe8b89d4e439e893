// The samples of a reply added into working memory, by the prototype of its kind: the pulses, the filterbank's values at each clock, and their rotation by the carrier.
// The public function is equal to definitions of specs/ on every input.
#![tactic(auto)]

ghost use Rattle.std.specs.Prelude.{◌≡◌, ◌≤◌, ◌<◌, length};
ghost use Rattle.constants.specs.Setting.{per_pulse};
ghost use Rattle.constants.specs.Rate.{working_memory, ring_slots};
ghost use Rattle.reply_samples.specs.Samples.{prototype_of};
ghost use Rattle.reply_samples.specs.RingModel.{added_from, added_reply, added_count};
ghost use Rattle.reply_add.specs.Signal.{samples_of, count_of};
ghost use Rattle.reply_add.specs.AddModel.{wave_of, wave_samples, Adds};

use block_values::{Block, Ended, Pace, Tick};
use constants::SamplesPerPulse;
use filterbank::{Clock, PADDED_LEN};
use floats::BLOCK;
use message::ReplyKind;
use message_config::{Delays, MessageConfig};
use pulse_shape::Filters;
use reply_samples::Carrier;

// The filterbank of a reply: a prototype, and the padded pulses that it runs over.
#[derive(Clone, Copy)]
struct Bank<'a> {
    pub setting: SamplesPerPulse,
    pub prototype: &'a [f32],
    pub padded: &'a [bool; PADDED_LEN],
}

// A reply's clock and carrier at its first sample, how the clock goes on, and the limit of its indices.
#[derive(Clone, Copy)]
struct Wave {
    pub clock: Clock,
    pub step: f64,
    pub limit: usize,
    pub carrier: Carrier,
}

impl Bank<'_> {
    // Adds the samples of a wave from a slot on, and answers how many they are.
    #[tactic(auto, unfolding(reply_samples::specs::RingModel::is_slot, reply_samples::specs::RingModel::added_reply, reply_samples::specs::RingModel::added_count))]
    fn add_wave(self, w: Wave, memory: &mut [f32], slot: usize) -> u16
        requires { w.limit ≤ 246 }
        ensures { Adds (per_pulse self.entry.setting) memory.old slot (wave_samples (per_pulse self.entry.setting) self.entry.prototype.now self.entry.padded.now w) memory.new result }
    {
        if memory.len() != self.setting.memory_len() || slot >= self.setting.ring_slots() {
            return 0;
        }
        self.add_blocks(w, memory, slot) as u16
    }

    // The same where the memory has its length and the slot is one of its ring, block by block.
    fn add_blocks(self, w: Wave, memory: &mut [f32], slot: usize) -> usize
        requires { (length memory.old ≡ working_memory (per_pulse self.setting)) × (slot < ring_slots (per_pulse self.setting)) × (w.limit ≤ 246) }
        ensures memory { memory.new ≡ added_from (per_pulse self.entry.setting) memory.old slot (wave_samples (per_pulse self.entry.setting) self.entry.prototype.now self.entry.padded.now w) }
        ensures count { result ≡ length (wave_samples (per_pulse self.entry.setting) self.entry.prototype.now self.entry.padded.now w) }
        ensures most { result ≤ 2214 }
    {
        let most = (self.setting.number() as usize + 1) * w.limit;
        let pace = Pace {
            step: w.step,
            rate: w.carrier.rate,
            limit: w.limit,
        };
        let mut block = Block {
            phases: [0.0; BLOCK],
            indices: [0; BLOCK],
            carriers: [0.0; BLOCK],
        };
        let mut values = [0.0; BLOCK];
        let mut at = Ended {
            tick: Tick {
                clock: w.clock,
                carrier: w.carrier.phase,
            },
            n: 0,
        };
        let mut slot = slot;
        let mut count: usize = 0;
        while count < most && at.tick.clock.index < w.limit {
            at = block_values::fill_clocks(at.tick, most - count, pace, &mut block);
            block_values::fill(
                self.setting,
                self.prototype,
                self.padded,
                &block,
                &mut values[..at.n],
            );
            block_rotate::add(
                self.setting,
                &values,
                at.n,
                w.carrier.amplitude,
                &block.carriers,
                memory,
                slot,
            );
            slot = (slot + at.n) % self.setting.ring_slots();
            count += at.n;
        }
        count
    }
}

// A reply to add: its message and amplitude, and the samples per pulse, prototypes and delays by which it is made.
#[derive(Clone, Copy)]
pub struct ReplySignal<'a> {
    pub setting: SamplesPerPulse,
    pub prototypes: Filters<'a>,
    pub delays: Delays,
    pub config: MessageConfig,
    pub amplitude: f32,
}

impl<'a> ReplySignal<'a> {
    // The prototype of its kind.
    #[tactic(auto, unfolding(reply_samples::specs::Samples::prototype_of))]
    fn prototype(self) -> &'a [f32]
        ensures { result.now ≡ prototype_of self.entry.config.reply.kind self.entry.prototypes.mode_s.now self.entry.prototypes.mode_ac.now }
    {
        match self.config.reply.kind {
            ReplyKind::Short | ReplyKind::Long => self.prototypes.mode_s,
            ReplyKind::ModeAc => self.prototypes.mode_ac,
        }
    }

    // Its wave, as a reply of `len` positions.
    #[tactic(auto, unfolding(crate::specs::AddModel::wave_of, message_config::specs::Config::onset_of), using(crate::proofs::Filling::limit_some))]
    fn wave(self, len: usize) -> Wave
        requires { len ≤ 240 }
        ensures { (result ≡ wave_of self.entry len) × (result.limit ≤ 246) }
    {
        let o = self.config.onset(self.setting, self.delays);
        Wave {
            clock: filterbank::start_clock(self.setting, o.clock_phase),
            step: filterbank::clock_step(self.setting, o.clock_error),
            limit: if len == 0 { 0 } else { len + 6 },
            carrier: Carrier {
                amplitude: self.amplitude,
                rate: o.carrier_rate,
                phase: o.carrier_phase,
            },
        }
    }
}

// Adds the samples of a reply into working memory from a slot on, by the prototype of its kind, and answers how many they are.
pub fn add_reply(r: ReplySignal, memory: &mut [f32], slot: usize) -> u16
    ensures { (memory.new ≡ added_reply (per_pulse r.entry.setting) memory.old slot (samples_of r.entry)) × (result ≡ added_count (per_pulse r.entry.setting) memory.old slot (count_of r.entry)) }
{
    let p = reply_pulses::message_to_pulses(r.config.reply);
    let padded = filterbank::pad_pulses(&p.on[..p.len]);
    let bank = Bank {
        setting: r.setting,
        prototype: r.prototype(),
        padded: &padded,
    };
    bank.add_wave(r.wave(p.len), memory, slot)
}
