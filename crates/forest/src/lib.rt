// The trees of a forest: what they are, that a forest has every one once, in which order, and how the k-th is found: mathematics alone, in specs/ and proofs/.
#![tactic(auto)]
