// Document 02, Nine: the audio card by its rules. It stands by itself, above the laws of choices, rings and word order: no rule of the
// plain module is used. The card's types are those of specs/, since only numbers and memory cross its code. No function stands here.
#![tactic(auto)]
