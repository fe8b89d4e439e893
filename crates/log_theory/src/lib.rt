// No code: specs/ and proofs/ hold the theory of pairings of heard replies with sent ones.
#![tactic(auto)]
