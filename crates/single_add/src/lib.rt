// The samples of one reply alone: noise, and the reply added to it, trimmed at both ends.
#![tactic(auto)]

ghost use Rattle.std.specs.Prelude.{◌≡◌, ◌≤◌, ◌<◌, ◌^◌, length};
ghost use Rattle.constants.specs.Rate.{working_memory};
ghost use Rattle.constants.specs.Setting.{per_pulse};
ghost use Rattle.message_config.specs.Config.{config_start};
ghost use Rattle.reply_add.specs.Signal.{samples_of};
ghost use Rattle.run_theory.specs.Zeros.{zeros};
ghost use Rattle.single_add.specs.Stretch.{scaled_noise, first_reached, passed_over};
ghost use Rattle.single_add.specs.StretchModel.{windowed, added_window, stretch_of};

use constants::{MAX_MEMORY_LEN, NOISE_SCALE};
use reply_add::ReplySignal;

// Writes noise over the output, scaled.
#[tactic(auto, unfolding(crate::specs::Stretch::scaled_noise))]
fn write_noise(noise: &[f32], output: &mut [f32])
    requires { length noise.now ≡ length output.old }
    ensures { output.new ≡ scaled_noise noise.now }
{
    for i in 0..output.len() {
        output[i] = noise[i] * NOISE_SCALE;
    }
}

// Adds a reply's samples to the output from index `at` on, the first `past` numbers of the reply passed over. The part that it reaches goes through working memory, where `add_reply` adds.
fn add_window(r: ReplySignal, output: &mut [f32], at: usize, past: usize)
    requires { (at ≤ length output.old) × (past ≤ working_memory (per_pulse r.setting)) }
    ensures { output.new ≡ windowed (per_pulse r.entry.setting) at past (samples_of r.entry) output.old }
{
    // at 4 samples per pulse a part of it is used
    let mut whole = [0.0; MAX_MEMORY_LEN];
    let memory = &mut whole[..r.setting.memory_len()];
    let len = (output.len() - at).min(memory.len() - past);
    memory[past..past + len].copy_from_slice(&output[at..at + len]);
    reply_add::add_reply(r, memory, 0);
    output[at..at + len].copy_from_slice(&memory[past..past + len]);
}

// The first sample that a reply with this start reaches.
#[tactic(auto, unfolding(crate::specs::Stretch::first_reached))]
fn first_reached(start: i64) -> u64
    ensures { (result ≡ first_reached start) × (result < 2 ^ 63) }
{
    start.max(0) as u64
}

// The samples of the reply that lie before sample 0.
#[tactic(auto, unfolding(crate::specs::Stretch::passed_over))]
fn passed_over(start: i64) -> u64
    ensures { result ≡ passed_over start }
{
    start.min(0).unsigned_abs()
}

// Adds a reply's samples to the output from its start on.
fn add(r: ReplySignal, output: &mut [f32])
    ensures { output.new ≡ added_window (per_pulse r.entry.setting) (config_start r.entry.delays r.entry.config) (samples_of r.entry) output.old }
{
    let start = r.config.first_sample_index(r.delays);
    let first = first_reached(start);
    let past = passed_over(start);
    let slots = r.setting.ring_slots();
    if first < (output.len() / 2) as u64 && past <= slots as u64 {
        add_window(r, output, 2 * first as usize, 2 * past as usize);
    }
}

// Writes noise over the output and adds a reply's samples from its start on. Noise of another length than the output leaves it.
#[tactic(auto, unfolding(crate::specs::StretchModel::stretch_of))]
pub fn stretch(r: ReplySignal, noise: &[f32], output: &mut [f32])
    ensures { output.new ≡ stretch_of (per_pulse r.entry.setting) (config_start r.entry.delays r.entry.config) (samples_of r.entry) noise.now output.old }
{
    if noise.len() == output.len() {
        write_noise(noise, output);
        add(r, output);
    }
}
