// Document 02, Ten: the TI module is a machine of the law of word order, and its page holds. No type and no function stands here.
#![tactic(auto)]
