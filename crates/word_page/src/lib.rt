// The edges that a look tells are those of the page: a theorem alone, in proofs/.
#![tactic(auto)]
