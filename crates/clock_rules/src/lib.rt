// The vocabulary of document 01, "The clock report". Its rules are the definitions in specs/, and what follows from them is
// in proofs/.
#![tactic(auto)]

// What a host's own clock gives: bits per second, and seconds per bit.
#[derive(Clone, Copy)]
pub struct Rates {
    pub rate: f64,
    pub bittime: f64,
}

// Where a module's clock comes from: its own divider, its pin, whose clock must stay below the instruction rate that is
// carried, or nowhere while it is disabled. These are three cases of one rank: in an Option the first two would stand a level deeper.
#[derive(Clone, Copy)]
pub enum Clock {
    Internal(Rates),
    External(f64),
    None,
}

// A clock report in the paper's numbers: the refusal number, 0 if not refused; which clock it is, neither if there is
// none; and the floats that it carries, 0 where it carries none. said_clock in specs/Clock.antt gives them for each case, and the demands
// of specs/ speak of them.
#[derive(Clone, Copy)]
pub struct ClockSaid {
    pub number: u8,
    pub internal: bool,
    pub external: bool,
    pub rate: f64,
    pub bittime: f64,
    pub below: f64,
}
