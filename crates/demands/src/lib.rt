// What is demanded of a parse, in specs/, and in proofs/ that the steps meet it: mathematics alone.
#![tactic(auto)]
