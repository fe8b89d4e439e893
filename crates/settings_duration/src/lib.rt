// The samples of a duration, or refusal 1.
#![tactic(auto)]

ghost use Rattle.std.specs.Prelude.{◌≡◌};
ghost use Rattle.constants.specs.Setting.{per_pulse};
ghost use Rattle.settings_duration.specs.Duration.{duration_of};

use constants::SamplesPerPulse;
use refusals::Refusal;

// A pulse lasts 500 ns, and there are 2,000,000 in a second.
#[tactic(auto, unfolding(crate::specs::Duration::duration_of))]
pub fn duration_as_samples(
    setting: SamplesPerPulse,
    seconds: u64,
    nanoseconds: u32,
) -> Result<u64, Refusal>
    ensures { result ≡ duration_of (per_pulse setting) seconds nanoseconds }
{
    if nanoseconds >= 1_000_000_000 {
        return Err(Refusal::Duration);
    }
    // beyond it there are more than 2^52 samples at either rate, and the product might not fit
    if seconds > 562_949_953 {
        return Err(Refusal::Duration);
    }
    let n = setting.number();
    let samples = seconds * (2_000_000 * n) + u64::from(nanoseconds) * n / 500;
    if samples > 0x10_0000_0000_0000 {
        return Err(Refusal::Duration);
    }
    Ok(samples)
}
