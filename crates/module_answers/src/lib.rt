// What a call on a module in memory comes to, and the edge that calls share (`specs/`), with the laws of both (`proofs/`).
#![tactic(auto)]
