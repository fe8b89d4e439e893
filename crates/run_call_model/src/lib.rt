// The model of a run call, which follows the code step by step: definitions in specs/, and the theorem that says what it means in proofs/.
#![tactic(auto)]
