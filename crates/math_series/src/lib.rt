// How far the sine and cosine of `math` lie from their series, and how far once narrowed to `f32`: the claim in specs/, its proof in proofs/. It has no code.
#![tactic(auto)]
