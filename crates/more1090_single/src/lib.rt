// One reply alone, under its C name.
#![tactic(auto)]

ghost use Rattle.std.specs.Prelude.{◌≡◌, length};
ghost use Rattle.single_theory.specs.Single.{single_run, single_output};
ghost use Rattle.single_run.specs.Answer.{answer_of};
ghost use Rattle.more1090_single.specs.Flat.{single_flat};

use pulse_shape::Filters;
use refusals::Refusal;

// Refusal 0 is none.
#[repr(C)]
#[derive(Clone, Copy)]
pub struct FlatSingle {
    pub refusal: u64,
    pub value: u64,
    pub field: u64,
}

#[tactic(auto, unfolding(crate::specs::Flat::single_flat, crate::specs::Flat::refusal_flat))]
fn single_out(answer: Result<(), Refusal>) -> FlatSingle
    ensures { result ≡ single_flat answer }
{
    match answer {
        Ok(()) => FlatSingle {
            refusal: 0,
            value: 0,
            field: 0,
        },
        Err(q) => {
            let v = refusals::values_of(q);
            FlatSingle {
                refusal: q.number(),
                value: v.value,
                field: v.field,
            }
        }
    }
}

// One reply alone (SPECIFICATION 14).
#[unsafe(no_mangle)]
pub extern "C" fn more1090_single(
    settings: &[u8],
    taps_s: &[f32],
    taps_ac: &[f32],
    draw: &[u8],
    noise: &[f32],
    output: &mut [f32],
) -> FlatSingle
    ensures { (result ≡ single_flat (answer_of (single_run settings.now taps_s.now taps_ac.now draw.now noise.now (length output.old)))) × (output.new ≡ single_output settings.now taps_s.now taps_ac.now draw.now noise.now output.old) }
{
    let taps = Filters {
        mode_s: taps_s,
        mode_ac: taps_ac,
    };
    single_out(single_run::single(settings, taps, draw, noise, output))
}
