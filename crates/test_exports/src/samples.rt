// The samples of a reply under a C name, for the differential harness to call: it only calls, and promises what it calls promises.
ghost use Rattle.std.specs.Prelude.{◌≡◌};
ghost use Rattle.constants.specs.Rate.{four};
ghost use Rattle.reply_samples.specs.Samples.{reply_samples, reply_count};
ghost use Rattle.reply_samples.specs.RingModel.{added_reply, added_count};
ghost use Rattle.test_exports.specs.Replies.{kind_numbered};
ghost use Rattle.test_exports.specs.Samples.{config_at};

use crate::replies::kind_numbered;
use constants::SamplesPerPulse;
use message::Reply;
use message_config::{Delays, MessageConfig};
use pulse_shape::Filters;
use reply_add::ReplySignal;

// The parameters are the C interface's. Adds a reply of kind 0 short, 1 long, else Mode A/C, and answers its count.
#[tactic(auto, unfolding(crate::specs::Samples::config_at, reply_add::specs::Signal::samples_of, reply_add::specs::Signal::count_of))]
#[unsafe(no_mangle)]
pub extern "C" fn port_add_reply(
    mode_s: &[f32],
    mode_ac: &[f32],
    time: f64,
    offset: f64,
    phase: f64,
    error: f64,
    kind: u8,
    bytes: &[u8; 14],
    amplitude: f32,
    delay_s: f64,
    delay_ac: f64,
    memory: &mut [f32],
    slot: usize,
) -> u16
    ensures { (memory.new ≡ added_reply four memory.old slot (reply_samples four mode_s.entry.now mode_ac.now (record { mode_s = delay_s; mode_ac = delay_ac }) amplitude (config_at time time offset phase error (kind_numbered kind) bytes.now))) × (result ≡ added_count four memory.old slot (reply_count four (record { mode_s = delay_s; mode_ac = delay_ac }) (config_at time time offset phase error (kind_numbered kind) bytes.now))) }
{
    let r = ReplySignal {
        setting: SamplesPerPulse::Four,
        prototypes: Filters { mode_s, mode_ac },
        delays: Delays {
            mode_s: delay_s,
            mode_ac: delay_ac,
        },
        config: MessageConfig {
            time,
            cn0: time,
            offset,
            phase,
            error,
            reply: Reply {
                kind: kind_numbered(kind),
                bytes: *bytes,
            },
        },
        amplitude,
    };
    reply_add::add_reply(r, memory, slot)
}
