// Messages and distributions under C names, for the differential harness to call: each function only calls, turns an answer into numbers, and promises what it calls promises.
ghost use Rattle.std.specs.Prelude.{◌≡◌, [], ◌∷◌};
ghost use Rattle.constants.specs.Rate.{four};
ghost use Rattle.distributions.specs.Accepted.{carrier_offset, carrier_phase, clock_error};
ghost use Rattle.distributions.specs.Drawn.{offset_of, phase_of, error_of};
ghost use Rattle.message_config.specs.Config.{config_start, config_clock_phase, config_clock_error, config_rate, config_phase};
ghost use Rattle.test_exports.specs.Drawn.{raw_distribution_of, drawn};
ghost use Rattle.test_exports.specs.Messages.{kind_of, message_at, delays_at};

use constants::SamplesPerPulse;
use distributions::RawDistribution;
use message::{Reply, ReplyKind};
use message_config::{Delays, MessageConfig};

#[tactic(auto, unfolding(crate::specs::Messages::kind_of))]
fn kind_of(mode_ac: bool) -> ReplyKind
    ensures { result ≡ kind_of mode_ac }
{
    if mode_ac {
        ReplyKind::ModeAc
    } else {
        ReplyKind::Long
    }
}

// The parameters are the C interface's. The first sample of a message; in `out` the clock error and the clock phase of its filter, and its carrier's rate and first phase.
#[unsafe(no_mangle)]
pub extern "C" fn port_message(
    time: f64,
    offset: f64,
    phase: f64,
    error: f64,
    mode_ac: bool,
    delay_s: f64,
    delay_ac: f64,
    out: &mut [f64; 4],
) -> i64
    ensures { (result ≡ config_start (delays_at delay_s delay_ac) (message_at time offset phase error (kind_of mode_ac))) × (out.new ≡ config_clock_error (message_at time offset phase error (kind_of mode_ac)) ∷ (config_clock_phase (delays_at delay_s delay_ac) (message_at time offset phase error (kind_of mode_ac)) ∷ (config_rate four (message_at time offset phase error (kind_of mode_ac)) ∷ (config_phase four (delays_at delay_s delay_ac) (message_at time offset phase error (kind_of mode_ac)) ∷ [])))) }
{
    let c = MessageConfig {
        time,
        cn0: time,
        offset,
        phase,
        error,
        reply: Reply {
            kind: kind_of(mode_ac),
            bytes: [0; 14],
        },
    };
    let delays = Delays {
        mode_s: delay_s,
        mode_ac: delay_ac,
    };
    let o = c.onset(SamplesPerPulse::Four, delays);
    *out = [
        o.clock_error,
        o.clock_phase,
        o.carrier_rate,
        o.carrier_phase,
    ];
    c.first_sample_index(delays)
}

// The parameters are the C interface's. What three draws become by a distribution of each kind, a NaN where it is refused.
#[tactic(auto, unfolding(crate::specs::Drawn::raw_distribution_of, crate::specs::Drawn::drawn, crate::specs::Drawn::no_number))]
#[unsafe(no_mangle)]
pub extern "C" fn port_drawn(
    kind: u8,
    first: f64,
    second: f64,
    carrier: f64,
    phase: f64,
    clock: f64,
    out: &mut [f64; 3],
)
    ensures { out.new ≡ drawn offset_of (carrier_offset four (raw_distribution_of kind first second)) carrier ∷ (drawn phase_of (carrier_phase (raw_distribution_of kind first second)) phase ∷ (drawn error_of (clock_error (raw_distribution_of kind first second)) clock ∷ [])) }
{
    let asked = RawDistribution {
        kind,
        first,
        second,
    };
    let none = 0.0 / 0.0;
    let offset = distributions::carrier_offset(SamplesPerPulse::Four, asked).map_or(
        none,
        |d| distributions::offset_of(d, carrier),
    );
    let turn = distributions::carrier_phase(asked).map_or(
        none,
        |d| distributions::phase_of(d, phase),
    );
    let error = distributions::clock_error(asked).map_or(
        none,
        |d| distributions::error_of(d, clock),
    );
    *out = [offset, turn, error];
}
