// A word call at a word's beginning, where it asks and tells less. The definitions are in specs/, and that it is the same call is proved in proofs/.
#![tactic(auto)]
