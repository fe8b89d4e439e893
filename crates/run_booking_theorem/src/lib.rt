// What is shown of a booking: specs/ states it, proofs/ shows it.
#![tactic(auto)]
