// The forest that a step writes: the law that the trees need, in specs/, and in proofs/ that the steps meet it: mathematics alone.
#![tactic(auto)]
