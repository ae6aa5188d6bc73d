// The board in memory: a lent list of module records. What stands here is over one record's numbers, and over numbers alone; the
// exported calls of crate thurafeqa lend a record of the list to it.
#![tactic(auto)]

ghost use Rattle.std.specs.Prelude.{◌+◌, ◌-◌, ◌*◌, ◌≤◌, ◌||◌, ltb, ◌≡◌};
ghost use Rattle.board_rules.specs.Board.{board_number_of};
ghost use Rattle.board_rules.specs.Owed.{in_shift, words_owed, at_most65535};
ghost use Rattle.module_memory.specs.Memory.{module_in};
ghost use Rattle.module_by_number.specs.Told.{level_in};
ghost use Rattle.board_calls.specs.Boards.{asked_of, MakeTells, call_fault, pair_fault};
ghost use Rattle.board_calls.specs.Owing.{both_in, TellsOwed, fault_told, refused_number, refused_as, refused_call, refused_pair, MakesOwed, TicksOwed, LinksOwed};

use board_rules::BoardFault;
use module_types::{Settings, Shift};

// A module's memory as a record of the board.
#[repr(C)]
#[derive(Clone, Copy)]
pub struct Cells {
    pub numbers: [u16; 96],
}

// A call of one module by its kind, which the C interface hands over as a number, and up to three numbers. A report's floats go into lent
// memory. It answers ticks too, though make_counted goes another way with them: its promise is of every kind.
fn make(w: &mut [u16; 96], kind: u32, x: u32, y: u32, z: u32, report: &mut [f64; 3]) -> u32
    ensures { MakeTells (asked_of kind x y z) result report.old report.new w.old w.new }
{
    match kind {
        0 => {
            module_memory_stores::power_up(w);
            0
        }
        1 => module_by_number::read(w, x),
        2 => module_by_number::write(w, x, (y % 65536) as u16),
        3 => module_by_number::tick(w, x != 0, y != 0),
        4 => module_by_number::pins(w, x != 0, y != 0, z != 0),
        5 => module_by_number::clear(w),
        6 => module_by_number::clock(w, x, report),
        8 => module_by_number::clock_step(w, x != 0, y != 0, z != 0),
        9 => module_by_number::power_up_with(w, x),
        10 => word_calls::told(w, x != 0, (y % 65536) as u16),
        _ => module_by_number::levels(w),
    }
}

// The word in the shift register, if it is an accepted one that has left the transmit buffer.
fn in_shift(s: Settings, sh: Shift) -> u32
    ensures { (result ≡ in_shift s sh) × (result ≤ 1) }
{
    match sh {
        Shift::Free => 0,
        Shift::Loaded(_) => 1,
        Shift::Begun(p) => {
            if p.filler | module_settings::ssen_client(s) {
                0
            } else {
                1
            }
        }
    }
}

// The accepted words of a module that are not finished.
pub fn count(w: &[u16; 96]) -> u32
    ensures { (result ≡ words_owed (module_in w.now)) × (result ≤ 256) }
{
    let s = module_memory_looks::settings_in(w);
    let waiting = module_memory_looks::waiting_in(w);
    let sh = module_memory_looks::shift_in(w);
    waiting as u32 + in_shift(s, sh)
}

// A total, where a count has become another: not below 0, and not above 65,535.
fn moved(total: u32, was: u32, is: u32) -> u32
    requires { (total ≤ 65535) × (is ≤ 256) }
    ensures { (result ≡ at_most65535 (total + is - was)) × (result ≤ 65535) }
{
    (total + is).saturating_sub(was).min(65535)
}

// A total and an answer as one number.
#[tactic(auto, unfolding(crate::specs::Owing::both_in))]
fn both(total: u32, answer: u32) -> u64
    ensures { result ≡ both_in total answer }
{
    total as u64 * 4294967296 + answer as u64
}

// A call of one module, counted before and after it.
fn make_between(
    w: &mut [u16; 96],
    owed: u32,
    kind: u32,
    x: u32,
    y: u32,
    z: u32,
    report: &mut [f64; 3],
) -> u64
    ensures { MakesOwed owed (asked_of kind x y z) result report.old report.new w.old w.new }
{
    let was = count(w);
    let answer = make(w, kind, x, y, z, report);
    let is = count(w);
    both(moved(owed % 65536, was, is), answer)
}

// A tick of one module, counted before and after it. A tick writes no report, and takes none: this stands out of line behind the short way,
// and as a case of make_between it would hand on three numbers and a report more.
fn tick_between(w: &mut [u16; 96], owed: u32, sdi: bool, ss: bool) -> u64
    ensures { TicksOwed owed sdi ss result w.old w.new }
{
    let was = count(w);
    let answer = module_by_number::tick(w, sdi, ss);
    let is = count(w);
    both(moved(owed % 65536, was, is), answer)
}

// A tick of one module, with the board's total moved by it. Within a word no count moves, so that none is counted.
pub fn tick_counted(w: &mut [u16; 96], owed: u32, sdi: u32, ss: u32) -> u64
    ensures { TicksOwed owed (level_in sdi) (level_in ss) result w.old w.new }
{
    if module_midword::tick_within(w, sdi != 0, ss != 0) {
        return both(owed % 65536, 1);
    }
    tick_between(w, owed, sdi != 0, ss != 0)
}

// A call of one module, with the board's total moved by it. A tick goes the way of ticks, in line: with a call of tick_counted the compiler
// takes tick_between into that, and an exported tick of a board becomes two calls.
pub fn make_counted(
    w: &mut [u16; 96],
    owed: u32,
    kind: u32,
    x: u32,
    y: u32,
    z: u32,
    report: &mut [f64; 3],
) -> u64
    ensures { MakesOwed owed (asked_of kind x y z) result report.old report.new w.old w.new }
{
    if kind == 3 {
        if module_midword::tick_within(w, x != 0, y != 0) {
            return both(owed % 65536, 1);
        }
        return tick_between(w, owed, x != 0, y != 0);
    }
    make_between(w, owed, kind, x, y, z, report)
}

// A linked run, with the board's total moved by both ends.
pub fn join_counted(host: &mut [u16; 96], client: &mut [u16; 96], owed: u32, limit: u32) -> u64
    ensures { LinksOwed owed limit result host.old host.new client.old client.new }
{
    let host_was = count(host);
    let client_was = count(client);
    let answer = module_by_number::linked(host, client, limit);
    let first = moved(owed % 65536, host_was, count(host));
    both(moved(first, client_was, count(client)), answer)
}

// The number of a fault, where an answer has it.
fn fault_number(fault: BoardFault) -> u32
    ensures { result ≡ board_number_of fault * 65536 }
{
    u8::from(fault) as u32 * 65536
}

// Whether a list of `count` modules is no board.
fn is_bad_list(count: usize) -> bool
    ensures { result ≡ (ltb count 1 || ltb 4 count) }
{
    (count < 1) | (4 < count)
}

// The board's test of a call of module `n`, on a board of `count` modules. A call that is not refused passes two tests.
fn tested(count: usize, n: u32) -> Result<(), BoardFault>
    ensures { fault_told result * 65536 ≡ call_fault count n }
{
    if 4 < count {
        return Err(BoardFault::BadList);
    }
    if (n as usize) < count {
        return Ok(());
    }
    if count < 1 {
        return Err(BoardFault::BadList);
    }
    Err(BoardFault::NoModule)
}

// That of a linked run of modules `a` and `b`: the first is tested, then whether it is named twice, then the second.
fn tested_two(count: usize, a: u32, b: u32) -> Result<(), BoardFault>
    ensures { fault_told result * 65536 ≡ pair_fault count a b }
{
    tested(count, a)?;
    if a == b {
        return Err(BoardFault::NoModule);
    }
    tested(count, b)
}

// What a refused call returns: the fault's number, and the total as it was. None where the test refuses nothing.
fn refusal(owed: u32, test: Result<(), BoardFault>) -> Option<u64>
    ensures { result ≡ refused_as (refused_number owed (fault_told test * 65536)) }
{
    match test {
        Ok(()) => None,
        Err(fault) => Some(both(owed % 65536, fault_number(fault))),
    }
}

// Why a call of module `n` is refused, as the whole number that it returns, if it is.
pub fn refused(count: usize, owed: u32, n: u32) -> Option<u64>
    ensures { result ≡ refused_as (refused_call count owed n) }
{
    refusal(owed, tested(count, n))
}

// The same of a linked run of modules `a` and `b`.
pub fn refused_two(count: usize, owed: u32, a: u32, b: u32) -> Option<u64>
    ensures { result ≡ refused_as (refused_pair count owed a b) }
{
    refusal(owed, tested_two(count, a, b))
}

// The question: the words that a board of `count` modules owes, as a number.
pub fn owes(count: usize, owed: u32) -> u32
    ensures { TellsOwed count owed result }
{
    if is_bad_list(count) {
        return fault_number(BoardFault::BadList);
    }
    owed % 65536
}
