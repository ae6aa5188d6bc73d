// Whole numbers as 64-bit floats, and their quotients. No type and no function stands here.
#![tactic(auto)]
