// The functions of `test_exports` for C: each calls the one of its name, with the parameters of the C interface, and promises what that promises.
#![tactic(auto)]

mod phases;
mod pulse_maps;
mod replies;
mod samples;
mod shape;
mod starts;
mod taps;
