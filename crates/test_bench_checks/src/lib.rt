// The bench checks marked P in SPECIFICATION 12, as one table about the definitions: see specs/ and proofs/.
#![tactic(auto)]
