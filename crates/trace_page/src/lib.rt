// The page of trace files, proved, and the laws of their contents, levels and order (`proofs/`).
#![tactic(auto)]
