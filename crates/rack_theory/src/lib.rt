// The claim on every list of calls on an opened rack, on the contracts of `rack::open` and `rack::run`. It has no code: see specs/ and proofs/.
#![tactic(auto)]
