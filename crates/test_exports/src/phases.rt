// Floats and phases under C names, for the differential harness to call: each function only calls, and promises what it calls promises.
// A C name for each, also where a body is one call.
ghost use Rattle.std.specs.Prelude.{◌≡◌, [], ◌∷◌};
ghost use Rattle.std.specs.Float.Ieee.{to_unsigned};
ghost use Rattle.floats.specs.Narrow.{narrow as narrowed};
ghost use Rattle.floats.specs.Ceil.{ceil_signed};
ghost use Rattle.math.specs.Phase.{phase_wrap, phase_wrap_once};
ghost use Rattle.math.specs.Carrier.{sin_cos};

// Rust's `x as f32`.
#[unsafe(no_mangle)]
pub extern "C" fn port_narrow(x: f64) -> f32
    ensures { result ≡ narrowed x }
{
    floats::narrow(x)
}

// Rust's `x.ceil() as i64`.
#[unsafe(no_mangle)]
pub extern "C" fn port_ceil_to_i64(x: f64) -> i64
    ensures { result ≡ ceil_signed 63 x }
{
    floats::ceil_to_i64(x)
}

// Rust's `x as u64`.
#[unsafe(no_mangle)]
pub extern "C" fn port_to_u64(x: f64) -> u64
    ensures { result ≡ to_unsigned 64 x }
{
    floats::to_u64(x)
}

// The phase wrapped, wrapped once, its sine and its cosine.
#[unsafe(no_mangle)]
pub extern "C" fn port_phase(p: f64, out: &mut [f64; 4])
    ensures { out.new ≡ phase_wrap p ∷ (phase_wrap_once p ∷ ((sin_cos p).sin ∷ ((sin_cos p).cos ∷ []))) }
{
    let y = math::sin_cos(p);
    *out = [
        math::phase_wrap_f64(p),
        math::phase_wrap_once_f64(p),
        y.sin,
        y.cos,
    ];
}
