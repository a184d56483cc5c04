// Mathematics that several crates cite: no code, only definitions (specs) and laws (proofs).
#![tactic(auto)]
