// What the two buffers share: rings whose positions go round the depth, and with nothing in them.
#![tactic(auto)]

ghost use Rattle.std.specs.Prelude.{◌≡◌};
ghost use Rattle.ring.specs.Ring.{next};
ghost use Rattle.module_rules.specs.Buffers.{empty_transmit, empty_receive};

use module_types::{CpuRead, CpuWrite, Receive, SpiRead, SpiWrite, Transmit};

// Where the transmit buffer stands in a module's memory, and where the receive buffer does: 16 words, then the position of the next that is
// written, that of the next that is read, and a count.
pub const TRANSMIT: usize = 24;

pub const RECEIVE: usize = 44;

// The position after `at`. A position that calls cannot reach goes back to the first cell too.
pub fn next_position(depth: u8, at: u8) -> u8
    ensures { result ≡ next depth at }
{
    let on = at as u16 + 1;
    if on < depth as u16 { on as u8 } else { 0 }
}

// A transmit buffer with nothing in it, and below a receive buffer: two, since the buffers are two types.
#[tactic(auto, unfolding(module_rules::specs::Buffers::empty_transmit))]
pub fn empty_transmit() -> Transmit
    ensures { result ≡ empty_transmit }
{
    Transmit {
        words: [0; 16],
        write: CpuWrite(0),
        read: SpiRead(0),
        count: 0,
    }
}

// A receive buffer with nothing in it and no mark.
#[tactic(auto, unfolding(module_rules::specs::Buffers::empty_receive))]
pub fn empty_receive() -> Receive
    ensures { result ≡ empty_receive }
{
    Receive {
        words: [0; 16],
        write: SpiWrite(0),
        read: CpuRead(0),
        count: 0,
        marked: false,
    }
}
