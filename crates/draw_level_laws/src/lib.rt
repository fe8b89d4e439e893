// What holds of the table of levels and of every level's amplitude (SPECIFICATION 6.15). It has no code: the claim is specs/LevelLaws, its proof proofs/LevelLaws.
#![tactic(auto)]
