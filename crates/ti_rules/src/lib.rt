// Request Ten: the vocabulary of source document 002's module, without its FIFO. No function stands here. The rules are the
// definitions in specs/, and what follows from them is in proofs/. A level is a bool: true is high. This module stands on no rule of
// the plain one, so Answer, Outcome, Call and Output are its own, though crate module_types has types of these names.
#![tactic(auto)]

// What the mode call and the length call set: MASTER/SLAVE, TALK, CLOCK POLARITY, CLOCK PHASE, and the bits of a character.
#[derive(Clone, Copy)]
pub struct Settings {
    pub master: bool,
    pub talk: bool,
    pub polarity: bool,
    pub phase: bool,
    pub length: u8,
}

// A character in the shift register: zeros that nobody wrote, or a written one; the edges that it was given, 0 if it has not
// begun; and the bits received meanwhile. Zeros stand beside the bits, since memory has any number of both and under_of of specs/Watch.antt
// reads both.
#[derive(Clone, Copy)]
pub struct Character {
    pub zeros: bool,
    pub bits: u16,
    pub edges: u16,
    pub received: u16,
}

// The remembered levels of SPICLK and SPISTE, and the level that the output pin has or would have.
#[derive(Clone, Copy)]
pub struct Pins {
    pub sck: bool,
    pub select: bool,
    pub sdo: bool,
}

// What characters and edges move: SPITXBUF and SPIRXBUF, each with its character or none; SPIDAT, the shift register, which is free if
// it has none; the pins; and the overrun flag.
#[derive(Clone, Copy)]
pub struct Engine {
    pub waiting: Option<u16>,
    pub shift: Option<Character>,
    pub unread: Option<u16>,
    pub pins: Pins,
    pub overrun: bool,
}

// One module, in software reset or out of it.
#[derive(Clone, Copy)]
pub struct Ti {
    pub reset: bool,
    pub settings: Settings,
    pub engine: Engine,
}

// Why a call is refused, with the numbers of specs/Refusals.antt.
#[derive(Clone, Copy, Debug, PartialEq, Eq)]
pub enum Refusal {
    InReset = 2,
    OutOfReset = 3,
    TransmitFull = 5,
    ReceiveEmpty = 6,
    WrongClock = 7,
    WrongLength = 24,
}

// What a call answers: a refusal, nothing to tell, a character, no edge, or one edge made. No Result: the five are of one rank, and Ok
// would put four of them a level down.
#[derive(Clone, Copy)]
pub enum Answer {
    Refused(Refusal),
    Done,
    Value(u16),
    NoEdge,
    Edge,
}

// An answer, and the module after the call.
#[derive(Clone, Copy)]
pub struct Outcome {
    pub answer: Answer,
    pub after: Ti,
}

// The calls: enter and leave software reset; set master, talk, polarity and phase; set the length; write and read a character;
// tick with the level SDI; show the levels SCK, SDI and select; clear the overrun flag. The four levels of Mode and the three of Pin stand
// apart: the page and the table of refusals (specs/Demands.antt, specs/RefusalTable.antt) judge each of them by itself.
#[derive(Clone, Copy)]
pub enum Call {
    Enter,
    Leave,
    Mode(bool, bool, bool, bool),
    Length(u32),
    Write(u16),
    Read,
    Tick(bool),
    Pin(bool, bool, bool),
    Clear,
}

// The output pin as others see it. No Option<bool>: three names of one rank, which the examples and pages of specs/ use.
#[derive(Clone, Copy)]
pub enum Output {
    Low,
    High,
    Undriven,
}
