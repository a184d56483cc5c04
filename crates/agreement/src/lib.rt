// The two engines agree. No code: the statement, and its proof.
#![tactic(auto)]
