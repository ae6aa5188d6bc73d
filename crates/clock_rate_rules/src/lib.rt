// The prescalers for a wanted rate. The rule is the definition in specs/, and what follows from it is in proofs/.
#![tactic(auto)]
