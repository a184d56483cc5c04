// The numbers that document 01 prints, as rows of one table: mathematics alone, in proofs/.
#![tactic(auto)]
