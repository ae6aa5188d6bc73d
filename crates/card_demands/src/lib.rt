// Document 02, Nine: the card's page holds. No type and no function stands here.
#![tactic(auto)]
