// The pages of boards and of their totals, proved over all calls (`proofs/`).
#![tactic(auto)]
