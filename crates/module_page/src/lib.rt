// The page of demands on one module holds: each part is proved in a crate below, and is gathered here. No type and no function stands
// here.
#![tactic(auto)]
