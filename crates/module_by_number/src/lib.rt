// The calls of modules in memory, each answered by one number, as the C interface hands it out.
#![tactic(auto)]

ghost use Rattle.std.specs.Prelude.{◌≤◌, ◌≡◌};
ghost use Rattle.module_rules.specs.Calls.{power_up_of, read_of, write_of, tick_of, pins_of, clock_step_of, clear_of, sdo_of, ss_of};
ghost use Rattle.link_rules.specs.Link.{linked_of};
ghost use Rattle.clock_rules.specs.Clock.{report_of, said_clock};
ghost use Rattle.module_memory.specs.Memory.{module_in};
ghost use Rattle.module_by_number.specs.Told.{answer_number, Tells, output_bits, levels_number, step_number, StepTells, ClockTells, link_number, LinkTells};

use clock_rules::Clock;
use module_types::{Answer, Refusal};

// An answer as a number. No From: both types are of crates below.
fn answer_number(a: Answer) -> u32
    ensures { result ≡ answer_number a }
{
    match a {
        Answer::Refused(r) => module_looks::refusal_number(r) as u32 * 65536,
        Answer::Value(v) => v as u32,
        Answer::Done | Answer::NoEdge => 0,
        Answer::Edge => 1,
    }
}

// Power-up with a depth.
#[tactic(auto, using(crate::proofs::Answers::told))]
pub fn power_up_with(w: &mut [u16; 96], words: u32) -> u32
    ensures { Tells (power_up_of (module_in w.old) words) result w.old w.new }
{
    answer_number(module_register_calls::power_up_with(w, words))
}

// A read of a register.
#[tactic(auto, using(crate::proofs::Answers::told))]
pub fn read(w: &mut [u16; 96], register: u32) -> u32
    ensures { Tells (read_of (module_in w.old) register) result w.old w.new }
{
    answer_number(module_register_calls::read(w, register))
}

// A read of BUF, of which a port makes the most: it is not looked for among the registers.
pub fn read_buf(w: &mut [u16; 96]) -> u32
    ensures { Tells (read_of (module_in w.old) 3) result w.old w.new }
{
    answer_number(module_register_calls::read_buf(w))
}

// A write of a register.
#[tactic(auto, using(crate::proofs::Answers::told))]
pub fn write(w: &mut [u16; 96], register: u32, v: u16) -> u32
    ensures { Tells (write_of (module_in w.old) register v) result w.old w.new }
{
    answer_number(module_register_calls::write(w, register, v))
}

// A tick of a host's own clock, with the levels SDI and SS. A frame host goes its short way within a word.
pub fn tick(w: &mut [u16; 96], sdi: bool, ss: bool) -> u32
    ensures { Tells (tick_of (module_in w.old) sdi ss) result w.old w.new }
{
    if module_midword::frame_within(w, sdi, ss) {
        return 1;
    }
    answer_number(module_calls::tick(w, sdi, ss))
}

// The levels SCK, SDI and SS are shown to a module that is clocked from its pin. Within a word it goes the short way.
pub fn pins(w: &mut [u16; 96], sck: bool, sdi: bool, ss: bool) -> u32
    ensures { Tells (pins_of (module_in w.old) sck sdi ss) result w.old w.new }
{
    if module_midword::pins_within(w, sck, sdi, ss) {
        return 0;
    }
    answer_number(module_calls::pins(w, sck, sdi, ss))
}

// The interrupt flag is cleared.
#[tactic(auto, using(crate::proofs::Answers::told))]
pub fn clear(w: &mut [u16; 96]) -> u32
    ensures { Tells (clear_of (module_in w.old)) result w.old w.new }
{
    answer_number(module_register_calls::clear(w))
}

// A pin that the module may drive, SDO and SS: its level, and whether it is driven. The pins are read only where they are asked for, so that
// a module that drives no SS does not work its level out.
fn sdo_bits(w: &[u16; 96]) -> u32
    ensures { (result ≡ output_bits (sdo_of (module_in w.now))) × (result ≤ 3) }
{
    let s = module_memory_looks::settings_in(w);
    if !s.spien || s.con1.dissdo {
        return 0;
    }
    let pins = module_memory_looks::pins_in(w);
    if module_settings::is_deselected(s, pins.ss) {
        return 0;
    }
    2 + lent::weigh(pins.sdo, 1) as u32
}

fn ss_bits(w: &[u16; 96]) -> u32
    ensures { (result ≡ output_bits (ss_of (module_in w.now))) × (result ≤ 3) }
{
    let s = module_memory_looks::settings_in(w);
    if !s.spien || !module_settings::is_frame_host(s) {
        return 0;
    }
    let pins = module_memory_looks::pins_in(w);
    2 + lent::weigh(pins.pulse == s.con2.frmpol, 1) as u32
}

// The interrupt flag and the levels of SCK, SDO and SS.
pub fn levels(w: &[u16; 96]) -> u32
    ensures { (result ≡ levels_number (module_in w.now)) × (result ≤ 63) }
{
    let pins = module_memory_looks::pins_in(w);
    let flag = lent::weigh(module_memory_looks::interrupt_in(w), 1);
    let sck = lent::weigh(pins.sck, 2);
    (flag + sck) as u32 + sdo_bits(w) * 4 + ss_bits(w) * 16
}

// What a clock step tells, with the levels after it.
fn step_number(a: Answer, seen: u32) -> u32
    requires { seen ≤ 63 }
    ensures { result ≡ step_number a seen }
{
    match a {
        Answer::Refused(r) => module_looks::refusal_number(r) as u32 * 65536,
        Answer::NoEdge => seen + 64,
        Answer::Done | Answer::Value(_) | Answer::Edge => seen,
    }
}

// A clock step with the levels SCK, SDI and SS, and a look at the pins after it. Within a word it goes the short way.
pub fn clock_step(w: &mut [u16; 96], sck: bool, sdi: bool, ss: bool) -> u32
    ensures { StepTells (clock_step_of (module_in w.old) sck sdi ss) result w.old w.new }
{
    if module_midword::step_within(w, sck, sdi, ss) {
        return levels(w);
    }
    let answer = module_edges::clock_step(w, sck, sdi, ss);
    let seen = levels(w);
    step_number(answer, seen)
}

// The clock report for an instruction rate, by the kind of the clock: 1 is internal, 2 external, 0 none. Its floats go into lent memory: the
// rate and the bit time of an internal clock, and what an external one must stay below. A refused report leaves them as they were.
pub fn clock(w: &[u16; 96], rate: u32, report: &mut [f64; 3]) -> u32
    ensures { ClockTells (said_clock (report_of (module_in w.now) rate)) result report.old report.new }
{
    let s = module_memory_looks::settings_in(w);
    match clock_report::report_by(s, rate) {
        Err(why) => module_looks::refusal_number(why) as u32 * 65536,
        Ok(Clock::Internal(x)) => {
            *report = [x.rate, x.bittime, 0.0];
            1
        }
        Ok(Clock::External(below)) => {
            *report = [0.0, 0.0, below];
            2
        }
        Ok(Clock::None) => {
            *report = [0.0; 3];
            0
        }
    }
}

// The answer of a linked run as a number.
fn link_number(a: Result<u16, Refusal>) -> u32
    ensures { result ≡ link_number a }
{
    match a {
        Err(why) => module_looks::refusal_number(why) as u32 * 65536,
        Ok(edges) => edges as u32,
    }
}

// Two modules on one wire, for at most `limit` edges.
pub fn linked(host: &mut [u16; 96], client: &mut [u16; 96], limit: u32) -> u32
    ensures { LinkTells (linked_of (module_in host.old) (module_in client.old) limit) result host.old host.new client.old client.new }
{
    link_number(link_calls::linked(host, client, limit))
}
