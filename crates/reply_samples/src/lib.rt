// A complex sample and a reply's carrier, which the definitions of a reply's samples name, after `MessageConfig::samples` of simulation.rs.
#![tactic(auto)]

// A complex sample.
#[derive(Clone, Copy)]
pub struct Sample {
    pub re: f32,
    pub im: f32,
}

// A reply's carrier: its amplitude, what its phase goes on by in a sample, and its phase at the first sample.
#[derive(Clone, Copy)]
pub struct Carrier {
    pub amplitude: f32,
    pub rate: f64,
    pub phase: f64,
}
