// Where one reply alone and the plain run agree. It has no code: see specs/ and proofs/.
#![tactic(auto)]
