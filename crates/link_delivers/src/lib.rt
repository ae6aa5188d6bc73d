// Two modules on one wire deliver each other's words: the page of link_rules, specs/WireDemands.antt, proved by the law of
// word_wire. No type and no function stands here.
#![tactic(auto)]
