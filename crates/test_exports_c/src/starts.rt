// Messages and distributions for C.
ghost use Rattle.std.specs.Prelude.{◌≡◌, [], ◌∷◌};
ghost use Rattle.constants.specs.Rate.{four};
ghost use Rattle.distributions.specs.Accepted.{carrier_offset, carrier_phase, clock_error};
ghost use Rattle.distributions.specs.Drawn.{offset_of, phase_of, error_of};
ghost use Rattle.message_config.specs.Config.{config_start, config_clock_phase, config_clock_error, config_rate, config_phase};
ghost use Rattle.test_exports.specs.Drawn.{raw_distribution_of, drawn};
ghost use Rattle.test_exports.specs.Messages.{kind_of, message_at, delays_at};

// The first sample of a message; in `out` the clock error and the clock phase of its filter, and its carrier's rate and first phase.
#[unsafe(no_mangle)]
pub extern "C" fn port_message(
    time: f64,
    offset: f64,
    phase: f64,
    error: f64,
    mode_ac: bool,
    delay_s: f64,
    delay_ac: f64,
    out: &mut [f64; 4],
) -> i64
    ensures { (result ≡ config_start (delays_at delay_s delay_ac) (message_at time offset phase error (kind_of mode_ac))) × (out.new ≡ config_clock_error (message_at time offset phase error (kind_of mode_ac)) ∷ (config_clock_phase (delays_at delay_s delay_ac) (message_at time offset phase error (kind_of mode_ac)) ∷ (config_rate four (message_at time offset phase error (kind_of mode_ac)) ∷ (config_phase four (delays_at delay_s delay_ac) (message_at time offset phase error (kind_of mode_ac)) ∷ [])))) }
{
    test_exports::starts::port_message(time, offset, phase, error, mode_ac, delay_s, delay_ac, out)
}

// What three draws become by a distribution of each kind, a NaN where it is refused.
#[unsafe(no_mangle)]
pub extern "C" fn port_drawn(
    kind: u8,
    first: f64,
    second: f64,
    carrier: f64,
    phase: f64,
    clock: f64,
    out: &mut [f64; 3],
)
    ensures { out.new ≡ drawn offset_of (carrier_offset four (raw_distribution_of kind first second)) carrier ∷ (drawn phase_of (carrier_phase (raw_distribution_of kind first second)) phase ∷ (drawn error_of (clock_error (raw_distribution_of kind first second)) clock ∷ [])) }
{
    test_exports::starts::port_drawn(kind, first, second, carrier, phase, clock, out);
}
