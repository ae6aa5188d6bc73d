// The vocabulary of document 01: the types that every layer shares. No function stands here. The rules that give the
// types their meaning are the definitions in specs/, and what follows from the rules is in proofs/.
//
// A level is a bool: true is high. Small fields keep one module small enough to pass by value.
#![tactic(auto)]

// The ring positions of the figure note in source document 004, kept apart so that none can stand for another:
// where the CPU writes next and the SPI engine reads next in the transmit buffer, and where the CPU reads next and the
// SPI engine writes next in the receive buffer.
#[derive(Clone, Copy)]
pub struct CpuWrite(pub u8);

#[derive(Clone, Copy)]
pub struct SpiRead(pub u8);

#[derive(Clone, Copy)]
pub struct CpuRead(pub u8);

#[derive(Clone, Copy)]
pub struct SpiWrite(pub u8);

// The words waiting to be sent: `count` of them, the first at `read`.
// An array and a count, no Vec: a module is fixed memory. Two types, not one generic: the rules of specs/ name each one's own positions and mark.
#[derive(Clone, Copy)]
pub struct Transmit {
    pub words: [u16; 16],
    pub write: CpuWrite,
    pub read: SpiRead,
    pub count: u8,
}

// The received words not yet read: `count` of them, the first at `read`. The mark stands from an overflow in enhanced
// operation until the module is disabled.
#[derive(Clone, Copy)]
pub struct Receive {
    pub words: [u16; 16],
    pub write: SpiWrite,
    pub read: CpuRead,
    pub count: u8,
    pub marked: bool,
}

// A word between its first edge and its last: a filler or an accepted word, the edges it was given, and the bits
// received so far.
#[derive(Clone, Copy)]
pub struct Progress {
    pub filler: bool,
    pub word: u16,
    pub edges: u8,
    pub received: u16,
}

// The shift register: free, holding a word that has not begun, or within a word.
#[derive(Clone, Copy)]
pub enum Shift {
    Free,
    Loaded(u16),
    Begun(Progress),
}

// The remembered clock and select levels, the level that SDO has or would have, and whether a frame pulse stands: given on
// SS by a frame host, or sampled there by a frame client at its last sample edge.
#[derive(Clone, Copy)]
pub struct Pins {
    pub sck: bool,
    pub ss: bool,
    pub sdo: bool,
    pub pulse: bool,
}

// CON1 by its bits.
#[derive(Clone, Copy)]
pub struct Con1 {
    pub dissck: bool,
    pub dissdo: bool,
    pub mode16: bool,
    pub smp: bool,
    pub cke: bool,
    pub ssen: bool,
    pub ckp: bool,
    pub msten: bool,
    pub spre: u8,
    pub ppre: u8,
}

// CON2 by its bits.
#[derive(Clone, Copy)]
pub struct Con2 {
    pub frmen: bool,
    pub spifsd: bool,
    pub frmpol: bool,
    pub frmdly: bool,
    pub spiben: bool,
}

// How many words each buffer holds in enhanced operation. Power-up chooses it (document 02, Twelve).
#[derive(Clone, Copy)]
pub enum Depth {
    Four,
    Eight,
    Sixteen,
}

// What power-up and register writes set and edges only look at.
#[derive(Clone, Copy)]
pub struct Settings {
    pub depth: Depth,
    pub spien: bool,
    pub spisidl: bool,
    pub sisel: u8,
    pub con1: Con1,
    pub con2: Con2,
}

// What words and edges move: the two buffers, the shift register, the pins, SPIROV and the interrupt flag.
#[derive(Clone, Copy)]
pub struct Engine {
    pub transmit: Transmit,
    pub receive: Receive,
    pub shift: Shift,
    pub pins: Pins,
    pub spirov: bool,
    pub interrupt: bool,
}

// One SPI module.
#[derive(Clone, Copy)]
pub struct Module {
    pub settings: Settings,
    pub engine: Engine,
}

// What can raise the interrupt flag, each with the number of words that it leaves: a word taken by a BUF read (unread
// words), a received word appended (unread words), a word that left the transmit buffer (waiting words), a word finished
// (words left to send), and a word written to BUF (waiting words).
#[derive(Clone, Copy)]
pub enum Event {
    Taken(u8),
    Appended(u8),
    Left(u8),
    Finished(u8),
    Written(u8),
}

// Why a call is refused. The paper's numbers are given by number_of in specs/Refusals.antt.
#[derive(Clone, Copy)]
pub enum Refusal {
    NoSuchRegister,
    Disabled,
    Enabled,
    TransmitFull,
    ReceiveEmpty,
    WrongClock,
    NoRate,
    UnreadableLine,
    DifferentModes,
    TooManyEdges,
    Undivided,
    LateSampling,
    UnselectedCke,
    Overflowed,
    NoSuchDepth,
}

// What a call answers: a refusal, nothing to tell, a register's value, no edge, or one edge made.
// No Result: the five stand side by side in the rules, as said_of lists them; a Result would put four of them a level below the first.
#[derive(Clone, Copy)]
pub enum Answer {
    Refused(Refusal),
    Done,
    Value(u16),
    NoEdge,
    Edge,
}

// An answer in the paper's numbers: the refusal number, 0 if not refused; the register value, 0 if none is told; and
// how many edges a tick made. said_of in specs/Refusals.antt gives them for each answer.
// Numbers and no enum: this is the paper's own form of an answer, of which said_of and its examples speak.
#[derive(Clone, Copy)]
pub struct Said {
    pub kind: u8,
    pub number: u8,
    pub value: u16,
    pub edges: u8,
}

// What every call returns: its answer, and the module after it.
#[derive(Clone, Copy)]
pub struct Outcome {
    pub answer: Answer,
    pub after: Module,
}

// The calls on one module: read a register, write a register, tick with the levels SDI and SS, see the pins SCK, SDI and
// SS, step the clock of whatever module it is with these three, clear the interrupt flag.
#[derive(Clone, Copy)]
pub enum Call {
    Read(u32),
    Write(u32, u16),
    Tick(bool, bool),
    Pin(bool, bool, bool),
    ClockStep(bool, bool, bool),
    Clear,
}

// A pin that the module may drive, SDO or SS, as others see it.
// No Option<bool>: three names say what `None` and `Some(true)` would leave to a comment.
#[derive(Clone, Copy)]
pub enum Output {
    Low,
    High,
    Undriven,
}
