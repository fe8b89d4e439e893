// The claims on stored runs: read back they are what was written, changed ones are refused, and a run that is stored and taken up again goes on as if it had not been. It has no code: see specs/ and proofs/.
#![tactic(auto)]
