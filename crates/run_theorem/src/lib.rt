// The claim on every list of run calls from what opening leaves, said of the contracts of opening and of run calls. It has no code: see specs/ and proofs/.
#![tactic(auto)]
