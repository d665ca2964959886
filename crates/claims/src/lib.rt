// The ledger and the claim about every list of calls: laws alone, nothing to run.
#![tactic(auto)]
