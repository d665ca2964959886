// The order of floats and bounds carried through an expression: laws only, in proofs/.
#![tactic(auto)]
