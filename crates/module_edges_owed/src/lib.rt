// The edges that an unframed host owes, and that it falls idle after exactly these. No type and no function stands here.
#![tactic(auto)]
