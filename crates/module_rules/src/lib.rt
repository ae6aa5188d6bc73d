// The rules of one module: document 01 as definitions that compute (specs/), the page of demands on them, and what light theorems and
// runs say of both (proofs/). No type and no function stands here.
#![tactic(auto)]
