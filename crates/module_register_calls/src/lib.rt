// Reads and writes of the registers of one module in memory, the clear call and power-up at a depth. Any numbers are answered, and a refused
// call leaves every number as it was.
#![tactic(auto)]

ghost use Rattle.std.specs.Prelude.{true, false, ◌≡◌};
ghost use Rattle.module_types.specs.declared.Answer.TheVariants.{Done};
ghost use Rattle.module_rules.specs.Registers.{con1_from, con2_from, stat_value};
ghost use Rattle.module_rules.specs.Edge.{levels};
ghost use Rattle.module_rules.specs.Calls.{power_up_of, read_buf, read_of, stat_written, write_stat, with_con1, with_con2, configured, write_buf, write_of, clear_of};
ghost use Rattle.module_memory.specs.Memory.{settings_in, module_in, Steps};
ghost use Rattle.module_answers.specs.Answered.{Answers};

use module_types::{Answer, Depth, Refusal};

// A read of BUF: refused when disabled, while the receive buffer is marked, or with nothing unread.
pub fn read_buf(w: &mut [u16; 96]) -> Answer
    ensures { Answers (read_buf (module_in w.old)) result w.old w.new }
{
    let s = module_memory_looks::settings_in(w);
    if !s.spien {
        return Answer::Refused(Refusal::Disabled);
    }
    let marked = module_memory_looks::marked_in(w);
    let count = module_memory_looks::unread_in(w);
    if marked {
        return Answer::Refused(Refusal::Overflowed);
    }
    if count == 0 {
        return Answer::Refused(Refusal::ReceiveEmpty);
    }
    let word = module_bits::low_bits(s, module_memory_looks::first_unread_in(w));
    module_word_steps::take_word(w);
    Answer::Value(word)
}

// What a read of STAT shows.
fn stat(w: &[u16; 96]) -> u16
    ensures { result ≡ stat_value (module_in w.now) }
{
    let s = module_memory_looks::settings_in(w);
    let waiting = module_memory_looks::waiting_in(w);
    let unread = module_memory_looks::unread_in(w);
    let free = module_memory_looks::is_free(w);
    let spirov = module_memory_looks::spirov_in(w);
    module_registers::stat_value(s, waiting, unread, free, spirov)
}

// A read of a register, and below a write. No enum of registers: read_of and write_of speak of any number, and the last arm refuses the others.
pub fn read(w: &mut [u16; 96], register: u32) -> Answer
    ensures { Answers (read_of (module_in w.old) register) result w.old w.new }
{
    match register {
        0 => Answer::Value(stat(w)),
        1 => Answer::Value(module_registers::con1_value(module_memory_looks::con1_in(w))),
        2 => Answer::Value(module_registers::con2_value(module_memory_looks::con2_in(w))),
        3 => read_buf(w),
        _ => Answer::Refused(Refusal::NoSuchRegister),
    }
}

// A write of BUF: refused when disabled or with the transmit buffer full.
fn write_buf(w: &mut [u16; 96], v: u16) -> Answer
    ensures { Answers (write_buf (module_in w.old) v) result w.old w.new }
{
    let s = module_memory_looks::settings_in(w);
    if !s.spien {
        return Answer::Refused(Refusal::Disabled);
    }
    let count = module_memory_looks::waiting_in(w);
    let depth = module_memory_looks::room_in(w);
    if depth <= count {
        return Answer::Refused(Refusal::TransmitFull);
    }
    module_word_steps::accept_word(w, module_bits::low_bits(s, v));
    Answer::Done
}

// What a write of STAT does to the engine: enabling sets the levels and ends a pulse, disabling empties and
// takes the mark away.
fn stat_written(w: &mut [u16; 96], v: u16)
    ensures { Steps (λ s. stat_written s v) w.old w.new }
{
    let s = module_memory_looks::settings_in(w);
    let on = module_bits::bit(v, 15);
    let spirov = module_memory_looks::spirov_in(w) & module_bits::bit(v, 6);
    module_memory_stores::store_spirov(w, spirov);
    if !s.spien & on {
        module_memory_stores::store_sck(w, s.con1.ckp);
        module_memory_stores::store_ss(w, true);
        module_memory_stores::store_sdo(w, false);
        module_memory_stores::store_pulse(w, false);
    } else if s.spien & !on {
        module_memory_stores::store_free(w);
        module_memory_stores::store_receive(w, module_buffers::empty_receive());
        module_memory_stores::store_transmit(w, module_buffers::empty_transmit());
    }
}

// A write of STAT: refused when it would enable bad settings.
fn write_stat(w: &mut [u16; 96], v: u16) -> Answer
    ensures { Answers (write_stat (module_in w.old) v) result w.old w.new }
{
    let s = module_memory_looks::settings_in(w);
    let on = module_bits::bit(v, 15);
    if !s.spien & on & module_settings::are_bad(s) {
        return Answer::Refused(module_settings::first_cause(s));
    }
    stat_written(w, v);
    module_memory_stores::store_stat(w, v);
    Answer::Done
}

// A write of CON1: refused while enabled.
// No one function with `write_con2` over a closure that stores: tried, and the proof of `write` could not cite what such a closure had stored.
fn write_con1(w: &mut [u16; 96], v: u16) -> Answer
    ensures { Answers (configured (module_in w.old) (with_con1 (settings_in w.old) (con1_from v))) result w.old w.new }
{
    let s = module_memory_looks::settings_in(w);
    if s.spien {
        return Answer::Refused(Refusal::Enabled);
    }
    module_memory_stores::store_con1(w, v);
    Answer::Done
}

// A write of CON2: refused while enabled.
fn write_con2(w: &mut [u16; 96], v: u16) -> Answer
    ensures { Answers (configured (module_in w.old) (with_con2 (settings_in w.old) (con2_from v))) result w.old w.new }
{
    let s = module_memory_looks::settings_in(w);
    if s.spien {
        return Answer::Refused(Refusal::Enabled);
    }
    module_memory_stores::store_con2(w, v);
    Answer::Done
}

// A write of a register.
pub fn write(w: &mut [u16; 96], register: u32, v: u16) -> Answer
    ensures { Answers (write_of (module_in w.old) register v) result w.old w.new }
{
    match register {
        0 => write_stat(w, v),
        1 => write_con1(w, v),
        2 => write_con2(w, v),
        3 => write_buf(w, v),
        _ => Answer::Refused(Refusal::NoSuchRegister),
    }
}

// The interrupt flag is cleared.
pub fn clear(w: &mut [u16; 96]) -> Answer
    ensures { Answers (clear_of (module_in w.old)) result w.old w.new }
{
    module_memory_stores::store_interrupt(w, false);
    Answer::Done
}

// Power-up with a depth. No TryFrom for Depth: it would stand in module_types, below power_up_of, which says what is a depth.
pub fn power_up_with(w: &mut [u16; 96], words: u32) -> Answer
    ensures { Answers (power_up_of (module_in w.old) words) result w.old w.new }
{
    let depth = match words {
        4 => Depth::Four,
        8 => Depth::Eight,
        16 => Depth::Sixteen,
        _ => return Answer::Refused(Refusal::NoSuchDepth),
    };
    module_memory_stores::power_up_at(w, depth);
    Answer::Done
}
