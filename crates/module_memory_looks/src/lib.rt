// A module in memory: 96 numbers of 16 bits that a caller holds. Any numbers are read as some module, and a look reads a part of it.
#![tactic(auto, unfolding(module_memory::specs::Memory::bit_in, module_memory::specs::Memory::byte_in, module_memory::specs::Memory::settings_in, module_memory::specs::Memory::engine_in))]

ghost use Rattle.std.specs.Prelude.{◌+◌, ◌<◌, ◌≤◌, ◌≡◌, get_or};
ghost use Rattle.module_types.specs.declared.Shift.TheVariants.{Free, Loaded, Begun};
ghost use Rattle.module_rules.specs.Settings.{depth_of};
ghost use Rattle.module_rules.specs.Registers.{is_free};
ghost use Rattle.module_rules.specs.Buffers.{first_waiting, first_unread, cell};
ghost use Rattle.module_rules.specs.Loading.{is_begun};
ghost use Rattle.module_memory.specs.Memory.{byte_in, place_in, from, words_at, progress_at, settings_in, engine_in, module_in};

use module_bits::bit;
use module_buffers::{RECEIVE, TRANSMIT};
use module_types::{
    Con1, Con2, CpuRead, CpuWrite, Depth, Engine, Module, Pins, Progress, Receive, Settings, Shift,
    SpiRead, SpiWrite, Transmit,
};

// CON1.
pub fn con1_in(w: &[u16; 96]) -> Con1
    ensures { result ≡ (settings_in w.now).con1 }
{
    Con1 {
        spre: (w[3] % 256) as u8,
        ppre: (w[4] % 256) as u8,
        ..module_registers::con1_from(w[2])
    }
}

// CON2.
pub fn con2_in(w: &[u16; 96]) -> Con2
    ensures { result ≡ (settings_in w.now).con2 }
{
    module_registers::con2_from(w[5])
}

// The depth. No From: any number is read as a depth, by depth_in.
fn depth_in(w: &[u16; 96]) -> Depth
    ensures { result ≡ (settings_in w.now).depth }
{
    match w[6] {
        4 => Depth::Four,
        16 => Depth::Sixteen,
        _ => Depth::Eight,
    }
}

// How many words each buffer holds.
pub fn room_in(w: &[u16; 96]) -> u8
    ensures { result ≡ depth_of (settings_in w.now) }
{
    module_settings::depth(settings_in(w))
}

// What power-up and register writes set.
pub fn settings_in(w: &[u16; 96]) -> Settings
    ensures { result ≡ settings_in w.now }
{
    Settings {
        depth: depth_in(w),
        spien: bit(w[0], 15),
        spisidl: bit(w[0], 13),
        sisel: (w[1] % 256) as u8,
        con1: con1_in(w),
        con2: con2_in(w),
    }
}

// How far behind its first word a buffer has the position of the next that is written, that of the next that is read, and its count.
const WRITE: usize = 16;

const READ: usize = 17;

const COUNT: usize = 18;

// Of the buffer that stands from AT on: its words, one of these three numbers, and its first word.
fn words_in<const AT: usize>(w: &[u16; 96]) -> [u16; 16]
    requires { AT + 16 ≤ 96 }
    ensures { result ≡ words_at (from AT (place_in w.now)) }
{
    let mut words = [0; 16];
    words.copy_from_slice(&w[AT..AT + 16]);
    words
}

fn number_in<const AT: usize, const BY: usize>(w: &[u16; 96]) -> u8
    requires { AT + BY < 96 }
    ensures { result ≡ byte_in (from AT (place_in w.now) BY) }
{
    (w[AT + BY] % 256) as u8
}

fn first_in<const AT: usize>(w: &[u16; 96]) -> u16
    requires { AT + 17 < 96 }
    ensures { result ≡ get_or (words_at (from AT (place_in w.now))) (cell (byte_in (from AT (place_in w.now) 17))) 0 }
{
    let at = (w[AT + 17] % 16) as usize;
    w[AT + at]
}

// The words waiting to be sent.
fn transmit_in(w: &[u16; 96]) -> Transmit
    ensures { result ≡ (engine_in w.now).transmit }
{
    Transmit {
        words: words_in::<TRANSMIT>(w),
        write: CpuWrite(cpu_write_in(w)),
        read: SpiRead(spi_read_in(w)),
        count: waiting_in(w),
    }
}

// Of the words waiting: how many, where the next is written, where the next to be sent is read, and that word.
pub fn waiting_in(w: &[u16; 96]) -> u8
    ensures { result ≡ (engine_in w.now).transmit.count }
{
    number_in::<TRANSMIT, COUNT>(w)
}

pub fn cpu_write_in(w: &[u16; 96]) -> u8
    ensures { result ≡ (engine_in w.now).transmit.write.0 }
{
    number_in::<TRANSMIT, WRITE>(w)
}

pub fn spi_read_in(w: &[u16; 96]) -> u8
    ensures { result ≡ (engine_in w.now).transmit.read.0 }
{
    number_in::<TRANSMIT, READ>(w)
}

#[tactic(auto, unfolding(module_rules::specs::Buffers::first_waiting, module_memory::specs::Memory::byte_in, module_memory::specs::Memory::engine_in))]
pub fn first_waiting_in(w: &[u16; 96]) -> u16
    ensures { result ≡ first_waiting (engine_in w.now).transmit }
{
    first_in::<TRANSMIT>(w)
}

// The words received and not read, and the mark.
fn receive_in(w: &[u16; 96]) -> Receive
    ensures { result ≡ (engine_in w.now).receive }
{
    Receive {
        words: words_in::<RECEIVE>(w),
        write: SpiWrite(spi_write_in(w)),
        read: CpuRead(cpu_read_in(w)),
        count: unread_in(w),
        marked: marked_in(w),
    }
}

// Of the words received: how many are unread, where the next is stored, where the next to be taken is read, that word, and
// the mark.
pub fn unread_in(w: &[u16; 96]) -> u8
    ensures { result ≡ (engine_in w.now).receive.count }
{
    number_in::<RECEIVE, COUNT>(w)
}

pub fn spi_write_in(w: &[u16; 96]) -> u8
    ensures { result ≡ (engine_in w.now).receive.write.0 }
{
    number_in::<RECEIVE, WRITE>(w)
}

pub fn cpu_read_in(w: &[u16; 96]) -> u8
    ensures { result ≡ (engine_in w.now).receive.read.0 }
{
    number_in::<RECEIVE, READ>(w)
}

#[tactic(auto, unfolding(module_rules::specs::Buffers::first_unread, module_memory::specs::Memory::byte_in, module_memory::specs::Memory::engine_in))]
pub fn first_unread_in(w: &[u16; 96]) -> u16
    ensures { result ≡ first_unread (engine_in w.now).receive }
{
    first_in::<RECEIVE>(w)
}

pub fn marked_in(w: &[u16; 96]) -> bool
    ensures { result ≡ (engine_in w.now).receive.marked }
{
    w[75] % 2 == 1
}

// The shift register.
pub fn shift_in(w: &[u16; 96]) -> Shift
    ensures { result ≡ (engine_in w.now).shift }
{
    match w[64] {
        0 => Shift::Free,
        1 => Shift::Loaded(w[66]),
        _ => Shift::Begun(progress_in(w)),
    }
}

// Whether no word is loaded or begun, and whether one has begun.
#[tactic(auto, using(module_memory::proofs::Looks::free_looked))]
pub fn is_free(w: &[u16; 96]) -> bool
    ensures { result ≡ is_free (engine_in w.now).shift }
{
    w[64] == 0
}

#[tactic(auto, using(module_memory::proofs::Looks::begun_looked))]
pub fn is_begun(w: &[u16; 96]) -> bool
    ensures { result ≡ is_begun (engine_in w.now).shift }
{
    1 < w[64]
}

// The word that is begun, if one is.
pub fn progress_in(w: &[u16; 96]) -> Progress
    ensures { result ≡ progress_at (place_in w.now) }
{
    Progress {
        filler: w[65] % 2 == 1,
        word: w[66],
        edges: (w[67] % 256) as u8,
        received: w[68],
    }
}

// The pins.
pub fn pins_in(w: &[u16; 96]) -> Pins
    ensures { result ≡ (engine_in w.now).pins }
{
    Pins {
        sck: w[69] % 2 == 1,
        ss: w[70] % 2 == 1,
        sdo: w[71] % 2 == 1,
        pulse: w[74] % 2 == 1,
    }
}

// SPIROV.
pub fn spirov_in(w: &[u16; 96]) -> bool
    ensures { result ≡ (engine_in w.now).spirov }
{
    w[72] % 2 == 1
}

// The interrupt flag.
pub fn interrupt_in(w: &[u16; 96]) -> bool
    ensures { result ≡ (engine_in w.now).interrupt }
{
    w[73] % 2 == 1
}

// The module that memory holds.
pub fn module_in(w: &[u16; 96]) -> Module
    ensures { result ≡ module_in w.now }
{
    Module {
        settings: settings_in(w),
        engine: Engine {
            transmit: transmit_in(w),
            receive: receive_in(w),
            shift: shift_in(w),
            pins: pins_in(w),
            spirov: spirov_in(w),
            interrupt: interrupt_in(w),
        },
    }
}
