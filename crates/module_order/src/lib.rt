// The module of module_rules is a machine of the law of word order. No type and no function stands here.
#![tactic(auto)]
