// Frames and fillers of module_rules' page, for every watched module of module_order. No type and no function stands here.
#![tactic(auto)]
