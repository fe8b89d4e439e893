// The generator as the theory of lists of calls takes it: what settings and filters make of draws. It has no code: see specs/ and proofs/.
#![tactic(auto)]
