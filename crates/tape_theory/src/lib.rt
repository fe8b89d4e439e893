// A tape's noise, fed to its run in chunks: it is a list of run calls, of which demand 3 speaks, and however it is cut the tape prints and gives what the plain run does. It has no code: see specs/ and proofs/.
#![tactic(auto)]
