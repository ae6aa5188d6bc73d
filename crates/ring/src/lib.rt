// Rings of any element, capacity and depth: positions that turn, and the words that a ring holds as a list. No type and no function
// stands here.
#![tactic(auto)]
