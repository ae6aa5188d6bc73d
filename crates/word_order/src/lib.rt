// One law of word order for every serial port: what is accepted, sent, received and read stands in order, whatever the calls. A module
// states what its words are and what a watcher sees of a call, and has the law. No type and no function stands here.
#![tactic(auto)]
