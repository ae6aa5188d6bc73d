// The vocabulary of document 02, Seven: a board of one to four modules. Its rules are the definitions in specs/, and what follows
// from them is in proofs/.
#![tactic(auto)]

ghost use Rattle.std.specs.Prelude.{◌≡◌};
ghost use Rattle.board_rules.specs.Board.{board_number_of};

use clock_rules::Clock;
use module_types::{Answer, Call, Output, Refusal};

// A call of one module of the board: power-up, power-up with a depth, a call, a clock report for an instruction rate, a look at its pins,
// a clock step with the levels SCK, SDI and SS and a look at its pins after it, or a word at a time with the level SS and the caller's word.
#[derive(Clone, Copy)]
pub enum BoardCall {
    PowerUp,
    PowerUpAt(u32),
    Make(Call),
    Report(u32),
    Look,
    StepAndLook(bool, bool, bool),
    MakeWord(bool, u16),
}

// What a look sees: the interrupt flag, and the levels of SCK, SDO and SS.
#[derive(Clone, Copy)]
pub struct Seen {
    pub interrupt: bool,
    pub sck: bool,
    pub sdo: Output,
    pub ss: Output,
}

// Why the board refuses a call: the list's length is wrong, or there is no such module. The paper's numbers are given by
// board_number_of in specs/Board.antt.
#[derive(Clone, Copy)]
pub enum BoardFault {
    BadList,
    NoModule,
}

// The table's number for it.
impl From<BoardFault> for u8 {
    ghost from_gives = { λ fault n. n ≡ board_number_of fault };

    #[tactic(auto, unfolding(crate::specs::Board::board_number_of))]
    fn from(fault: BoardFault) -> u8 {
        match fault {
            BoardFault::BadList => 21,
            BoardFault::NoModule => 22,
        }
    }
}

// What a call of one module answers: why the board refuses it, or what the module alone answers. A word at a time answers as its first clock
// step does, and tells how many levels SDO was at and those levels as a number. Each kind of call answers in its own way: a Result
// would put all but a refusal a level deeper.
#[derive(Clone, Copy)]
pub enum BoardAnswer {
    Refused(BoardFault),
    Powered,
    Made(Answer),
    Told(Result<Clock, Refusal>),
    Shown(Seen),
    Stepped(Answer, Seen),
    Worded(Answer, u8, u32),
}
