// The model for a program in C or Rust to link: the calls of one module, linked runs, clock reports and trace files over memory that the
// caller holds, 96 numbers of 16 bits a module. Only numbers cross the boundary, and any numbers are answered.
#![tactic(auto)]

ghost use Rattle.std.specs.Prelude.{ℕ, ◌%◌, ◌*◌, ◌≡◌, MatchResult};
ghost use Rattle.module_rules.specs.Calls.{powered_up, power_up_of, read_of, write_of, tick_of, pins_of, clock_step_of, clear_of};
ghost use Rattle.word_rules.specs.Word.{word_of, edges_owed};
ghost use Rattle.board_rules.specs.Owed.{words_owed};
ghost use Rattle.word_calls.specs.Speaking.{WordTells, next_number};
ghost use Rattle.link_rules.specs.Link.{linked_of};
ghost use Rattle.clock_rules.specs.Clock.{report_of, said_clock};
ghost use Rattle.clock_rate_rules.specs.Rate.{prescalers_for};
ghost use Rattle.module_memory.specs.Memory.{module_in};
ghost use Rattle.module_by_number.specs.Told.{Tells, level_in, levels_number, StepTells, ClockTells, LinkTells};
ghost use Rattle.board_calls.specs.Boards.{asked_of};
ghost use Rattle.board_calls.specs.Owing.{TellsOwed, OwedTells, OwedTickTells, OwedPairTells};
ghost use Rattle.thurafeqa.specs.Numbers.{PlayTells, SaveTells, salvage_number, SalvageTells, version_number, format_number};

use board_calls::Cells;
use trace_salvage_rules::{SalvageFault, Salvaged};

// Power-up: the memory may hold anything before.
#[unsafe(no_mangle)]
pub extern "C" fn thurafeqa_power_up(w: &mut [u16; 96])
    ensures { module_in w.new ≡ powered_up }
{
    module_memory_stores::power_up(w);
}

// Power-up with a depth of 4, 8 or 16 words for enhanced operation.
#[unsafe(no_mangle)]
pub extern "C" fn thurafeqa_power_up_with(w: &mut [u16; 96], depth: u32) -> u32
    ensures { Tells (power_up_of (module_in w.old) depth) result w.old w.new }
{
    module_by_number::power_up_with(w, depth)
}

// Reads a register.
#[unsafe(no_mangle)]
pub extern "C" fn thurafeqa_read(w: &mut [u16; 96], register: u32) -> u32
    ensures { Tells (read_of (module_in w.old) register) result w.old w.new }
{
    if register == 3 {
        return module_by_number::read_buf(w);
    }
    module_by_number::read(w, register)
}

// Writes the low 16 bits of a value to a register.
#[unsafe(no_mangle)]
pub extern "C" fn thurafeqa_write(w: &mut [u16; 96], register: u32, value: u32) -> u32
    ensures { Tells (write_of (module_in w.old) register (value % 65536)) result w.old w.new }
{
    module_by_number::write(w, register, (value % 65536) as u16)
}

// One clock step of any module, with the levels SCK, SDI and SS, and a look at its pins after it. A host with its own clock makes its
// next edge, if any; SCK counts for none, and SS for a frame client alone. Any other module sees the levels.
#[unsafe(no_mangle)]
pub extern "C" fn thurafeqa_clock_step(w: &mut [u16; 96], sck: u32, sdi: u32, ss: u32) -> u32
    ensures { StepTells (clock_step_of (module_in w.old) (level_in sck) (level_in sdi) (level_in ss)) result w.old w.new }
{
    if module_midword::own_within(w, sck != 0, sdi != 0, ss != 0) {
        return module_by_number::levels(w);
    }
    module_by_number::clock_step(w, sck != 0, sdi != 0, ss != 0)
}

// One tick of a host with its own clock, with the levels SDI and SS. SS counts for a frame client alone.
#[unsafe(no_mangle)]
pub extern "C" fn thurafeqa_tick(w: &mut [u16; 96], sdi: u32, ss: u32) -> u32
    ensures { Tells (tick_of (module_in w.old) (level_in sdi) (level_in ss)) result w.old w.new }
{
    if module_midword::tick_within(w, sdi != 0, ss != 0) {
        return 1;
    }
    if module_edges::own_edge(w, sdi != 0, ss != 0) {
        return 1;
    }
    module_by_number::tick(w, sdi != 0, ss != 0)
}

// The levels SCK, SDI and SS are shown to a module that is clocked from its pin.
#[unsafe(no_mangle)]
pub extern "C" fn thurafeqa_pins(w: &mut [u16; 96], sck: u32, sdi: u32, ss: u32) -> u32
    ensures { Tells (pins_of (module_in w.old) (level_in sck) (level_in sdi) (level_in ss)) result w.old w.new }
{
    if module_midword::low_within(w, sck != 0, sdi != 0, ss != 0) {
        return 0;
    }
    if module_edges::low_edge(w, sck != 0, sdi != 0, ss != 0) {
        return 0;
    }
    module_by_number::pins(w, sck != 0, sdi != 0, ss != 0)
}

// A word at a time: all clock steps that the word under way, or the next one, still takes, with SDI from the low 16 bits of `word`, and the
// levels of SDO where it is sampled. A module with no word, and a framed one, makes one step.
#[unsafe(no_mangle)]
pub extern "C" fn thurafeqa_word(w: &mut [u16; 96], ss: u32, word: u32) -> u32
    ensures { WordTells (word_of (module_in w.old) (level_in ss) (word % 65536)) result w.old w.new }
{
    word_calls::told(w, ss != 0, (word % 65536) as u16)
}

// The word that would go out next, with bit 16 set; 0 if there is none.
#[unsafe(no_mangle)]
pub extern "C" fn thurafeqa_next(w: &[u16; 96]) -> u32
    ensures { result ≡ next_number (module_in w.now) }
{
    word_calls::next(w)
}

// The edges that an unframed host with its own clock still makes until it is idle, and the accepted words that a module has not finished.
#[unsafe(no_mangle)]
pub extern "C" fn thurafeqa_edges_owed(w: &[u16; 96]) -> u32
    ensures { result ≡ edges_owed (module_in w.now) }
{
    word_calls::edges_owed(w)
}

#[unsafe(no_mangle)]
pub extern "C" fn thurafeqa_words_owed(w: &[u16; 96]) -> u32
    ensures { result ≡ words_owed (module_in w.now) }
{
    board_calls::count(w)
}

// Clears the interrupt flag.
#[unsafe(no_mangle)]
pub extern "C" fn thurafeqa_clear(w: &mut [u16; 96])
    ensures { module_in w.new ≡ (clear_of (module_in w.old)).after }
{
    module_by_number::clear(w);
}

// The interrupt flag and the levels of SCK, SDO and SS.
#[unsafe(no_mangle)]
pub extern "C" fn thurafeqa_levels(w: &[u16; 96]) -> u32
    ensures { result ≡ levels_number (module_in w.now) }
{
    module_by_number::levels(w)
}

// Two modules on one wire, for at most `limit` edges.
#[unsafe(no_mangle)]
pub extern "C" fn thurafeqa_linked(host: &mut [u16; 96], client: &mut [u16; 96], limit: u32) -> u32
    ensures { LinkTells (linked_of (module_in host.old) (module_in client.old) limit) result host.old host.new client.old client.new }
{
    module_by_number::linked(host, client, limit)
}

// The clock report for an instruction rate. Its floats go into memory that the caller lends: the rate and the bit time of an
// internal clock, and what an external one must stay below. A refused report leaves them as they were.
#[unsafe(no_mangle)]
pub extern "C" fn thurafeqa_clock(w: &[u16; 96], rate: u32, report: &mut [f64; 3]) -> u32
    ensures { ClockTells (said_clock (report_of (module_in w.now) rate)) result report.old report.new }
{
    module_by_number::clock(w, rate, report)
}

// The prescalers for a wanted rate, as CON1 has them; 32 if there are none.
#[unsafe(no_mangle)]
pub extern "C" fn thurafeqa_prescalers(rate: u32, wanted: u32) -> u32
    ensures { result ≡ prescalers_for rate wanted }
{
    clock_rate::prescalers(rate, wanted) as u32
}

// A call of module `n` of a board, by its kind: 0 power-up, 1 a read of register `x`, 2 a write of `y` to register `x`, 3 a tick with
// the levels SDI `x` and SS `y`, 4 a pin call with SCK `x`, SDI `y` and SS `z`, 5 the clear call, 6 the clock report for the rate
// `x`, 8 a clock step with SCK `x`, SDI `y` and SS `z`, 9 power-up with the depth `x`, 10 a word at a time with SS `x` and the word `y`,
// any other a look at its levels. The low 16 bits of `owed` are the board's total; the total after the call comes back above the answer.
#[unsafe(no_mangle)]
pub extern "C" fn thurafeqa_board_call(
    board: &mut [Cells],
    owed: u32,
    n: u32,
    kind: u32,
    x: u32,
    y: u32,
    z: u32,
    report: &mut [f64; 3],
) -> u64
    ensures { OwedTells owed n (asked_of kind x y z) result report.old report.new board.old board.new }
{
    if let Some(why) = board_calls::refused(board.len(), owed, n) {
        return why;
    }
    board_calls::make_counted(&mut board[n as usize].numbers, owed, kind, x, y, z, report)
}

// A tick of module `n` of a board with the levels SDI and SS. The total goes in and comes back as in a call.
#[unsafe(no_mangle)]
pub extern "C" fn thurafeqa_board_tick_call(
    board: &mut [Cells],
    owed: u32,
    n: u32,
    sdi: u32,
    ss: u32,
) -> u64
    ensures { OwedTickTells owed n (level_in sdi) (level_in ss) result board.old board.new }
{
    if let Some(why) = board_calls::refused(board.len(), owed, n) {
        return why;
    }
    board_calls::tick_counted(&mut board[n as usize].numbers, owed, sdi, ss)
}

// Two modules of a board on one wire, for at most `limit` edges. The total goes in and comes back as in a call.
#[unsafe(no_mangle)]
pub extern "C" fn thurafeqa_board_linked(
    board: &mut [Cells],
    owed: u32,
    host: u32,
    client: u32,
    limit: u32,
) -> u64
    ensures { OwedPairTells owed host client limit result board.old board.new }
{
    if let Some(why) = board_calls::refused_two(board.len(), owed, host, client) {
        return why;
    }
    let mut wired = board[client as usize].numbers;
    let told = board_calls::join_counted(
        &mut board[host as usize].numbers,
        &mut wired,
        owed,
        limit,
    );
    board[client as usize].numbers = wired;
    told
}

// The question: the words that the board still owes. No module is looked at.
#[unsafe(no_mangle)]
pub extern "C" fn thurafeqa_board_owed(count: usize, owed: u32) -> u32
    ensures { TellsOwed count owed result }
{
    board_calls::owes(count, owed)
}

// What a count or a refusal is as a number: the upper 16 bits are the refusal's number, the lower 16 bits the count.
fn number<E: Into<u8>>(answer: Result<u16, E>) -> u32
    ensures { MatchResult answer (λ count. result ≡ count) (λ fault. (n : ℕ) × E.converts fault n × (result ≡ n * 65536)) }
{
    match answer {
        Ok(count) => u32::from(count),
        Err(fault) => u32::from(fault.into()) * 65536,
    }
}

// Plays a trace file on a fresh module. A refused play leaves the memory as it was.
#[unsafe(no_mangle)]
pub extern "C" fn thurafeqa_play(w: &mut [u16; 96], file: &[u8]) -> u32
    ensures { PlayTells file.now result w.old w.new }
{
    let played = trace_player::play(file, w);
    number(played)
}

// Saves a script session as a trace file in a lent buffer. A refused save leaves the buffer as it was.
#[unsafe(no_mangle)]
pub extern "C" fn thurafeqa_save(script: &[u8], file: &mut [u8]) -> u32
    ensures { SaveTells script.now result file.old file.new }
{
    let saved = trace_writer::save(script, file);
    number(saved)
}

// What salvaging a file answers as a number.
fn salvage_number(s: Result<Salvaged, SalvageFault>) -> u64
    ensures { result ≡ salvage_number s }
{
    match s {
        Ok(Salvaged { cut, lost, length }) => {
            cut as u64 * 281474976710656 + lost as u64 * 4294967296 + length as u64
        }
        Err(fault) => u64::from(u8::from(fault)) * 65536,
    }
}

// Salvages a cut trace file in a lent buffer. A refusal leaves the buffer as it was.
#[unsafe(no_mangle)]
pub extern "C" fn thurafeqa_salvage(file: &[u8], salvaged: &mut [u8]) -> u64
    ensures { SalvageTells file.now result salvaged.old salvaged.new }
{
    let answer = trace_writer::salvage(file, salvaged);
    salvage_number(answer)
}

// The library's version: the major number times 65,536, the minor one times 256, and the patch.
#[unsafe(no_mangle)]
pub extern "C" fn thurafeqa_version() -> u32
    ensures { result ≡ version_number }
{
    458754
}

// The number of the memory's format: it rises wherever the meaning of the 96 numbers changes.
#[unsafe(no_mangle)]
pub extern "C" fn thurafeqa_format() -> u32
    ensures { result ≡ format_number }
{
    4
}
