// Document 02, Nine: the placing of bits, proved once over protocol, length and frame. No type and no function stands here.
#![tactic(auto)]
