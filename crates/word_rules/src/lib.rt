// The vocabulary of a word at a time. Its rules are the definitions in specs/, and what follows from them is in proofs/.
#![tactic(auto)]

use module_types::{Answer, Module};

// What a word call returns: the answer of its first clock step, how many levels SDO was at where it is sampled, those levels as a
// number, the first highest, and the module after it.
#[derive(Clone, Copy)]
pub struct Worded {
    pub answer: Answer,
    pub count: u8,
    pub levels: u32,
    pub after: Module,
}
