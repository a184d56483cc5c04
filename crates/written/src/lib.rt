// Written grammars and their translation: definitions and laws alone, in specs/ and proofs/.
#![tactic(auto)]
