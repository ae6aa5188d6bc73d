// What every rule and proof may use: the choice between two values, lists that agree, laws of choices and tests, and equations that can be tested. No type and no function stands here.
#![tactic(auto)]
