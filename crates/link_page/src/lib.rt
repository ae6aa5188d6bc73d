// The page of linked runs, proved over all calls (`proofs/`).
#![tactic(auto)]
