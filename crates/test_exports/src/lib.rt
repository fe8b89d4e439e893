// Functions of the crates below under C names, for the differential harness to call: each only calls, turns an answer into numbers, and promises what it calls promises.
#![tactic(auto)]

// A function for each name of the C interface, also where two are alike but for a type or a mode.
pub mod phases;
pub mod pulse_maps;
pub mod replies;
pub mod samples;
pub mod shape;
pub mod starts;
pub mod taps;
