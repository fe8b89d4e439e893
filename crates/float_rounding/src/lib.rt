// Laws of rounding to `f64` and to `f32`, in units of 2^-1074 and 2^-149, and of the order of signed values, for the crates above to cite. It has no code: see proofs/.
#![tactic(auto)]
