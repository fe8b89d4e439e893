// What one reply alone is to be, and what is shown of it. It has no code: see specs/ and proofs/.
#![tactic(auto)]
