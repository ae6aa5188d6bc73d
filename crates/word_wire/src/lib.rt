// Two ports of the law of word order on one wire: what departs at one end arrives at the other. The law is in proofs/; there is no
// code.
#![tactic(auto)]
