// The vocabulary of document 01, "Two modules on one wire". Its rules are the definitions in specs/, and what follows from
// them is in proofs/.
#![tactic(auto)]

use module_types::{Module, Refusal};

// What a linked run comes to: the edges that the host made, and both modules after it.
#[derive(Clone, Copy)]
pub struct Run {
    pub used: u16,
    pub host: Module,
    pub client: Module,
}

// The answer of a linked run in the paper's numbers: the refusal number, 0 if not refused, and the edges used, 0 if refused.
// link_said_of in specs/Link.antt gives them, and the examples and demands of specs/ speak of them.
#[derive(Clone, Copy)]
pub struct LinkSaid {
    pub number: u8,
    pub edges: u16,
}

// What a linked run returns: its answer, the edges used, the host's only, or a refusal; and both modules after it.
#[derive(Clone, Copy)]
pub struct Linked {
    pub answer: Result<u16, Refusal>,
    pub host: Module,
    pub client: Module,
}
