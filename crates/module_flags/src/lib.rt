// What a call is seen to do raises the interrupt flag, sets SPIROV and moves SDO, and reads show it: the page's flags, registers and
// pins of module_rules after any calls. No type and no function stands here.
#![tactic(auto)]
