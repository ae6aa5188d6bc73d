// How 96 numbers are read as a module, what a step and a store there are (`specs/`), and the laws of both (`proofs/`).
#![tactic(auto)]
