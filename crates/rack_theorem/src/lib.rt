// The claim on a rack behind a run: what `run_theorem` claims of every list of run calls, delayed and scaled. It has no code: see specs/ and proofs/.
#![tactic(auto)]
