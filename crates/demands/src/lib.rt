// The page that a buyer signs, whole: specs/Demands.antt gathers the demands of the rules crates, and proofs/DemandsHold.antt
// their proofs. No type and no function stands here.
#![tactic(auto)]
