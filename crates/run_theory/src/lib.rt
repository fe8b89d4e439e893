// The theory of lists of run calls: plain run, plain bench and demand 3 in specs/, the machine and the proofs in proofs/. It has no code.
#![tactic(auto)]
