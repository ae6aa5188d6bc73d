// Every call keeps the invariant of module_rules, and what it is good for. No type and no function stands here.
#![tactic(auto)]
