// A small generator at which lists of run calls are computed, so that demand 3 is seen not to be empty. It has no code: see specs/ and proofs/.
#![tactic(auto)]
