// A linked run a word at a time. The definition is in specs/, and that it is so many turns is proved in proofs/.
#![tactic(auto)]
