// Document 02, Nine: the card is a machine of the law of word order. No type and no function stands here.
#![tactic(auto)]
