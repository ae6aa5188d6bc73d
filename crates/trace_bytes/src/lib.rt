// Trace files as bytes: what a file says that is made of sections, and that a right file is made of its own. The laws are in proofs/; no
// type and no function stands here.
#![tactic(auto)]
