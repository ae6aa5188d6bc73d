// The calls by value: each takes any module and any value, always answers, and returns the answer with the module after the
// call. The module is put into memory, the call is made there, and the module is read back.
#![tactic(auto)]

ghost use Rattle.std.specs.Prelude.{◌≡◌};
ghost use Rattle.module_rules.specs.Calls.{powered_up, read_of, write_of, tick_of, pins_of, clock_step_of, clear_of, perform_of};
ghost use Rattle.link_rules.specs.Link.{linked_of};

use link_rules::Linked;
use module_types::{Call, Module, Outcome};

// A module as it powers up.
pub fn power_up() -> Module
    ensures { result ≡ powered_up }
{
    let mut w = [0; 96];
    module_memory_stores::power_up(&mut w);
    module_memory_looks::module_in(&w)
}

// Any call by its name.
pub fn perform(m: Module, c: Call) -> Outcome
    ensures { result ≡ perform_of m c }
{
    let mut w = module_memory_stores::memory_of(m);
    let answer = module_calls::perform(&mut w, c);
    let after = module_memory_looks::module_in(&w);
    Outcome { answer, after }
}

// A read of a register.
#[tactic(auto, unfolding(module_rules::specs::Calls::perform_of))]
pub fn read(m: Module, register: u32) -> Outcome
    ensures { result ≡ read_of m register }
{
    perform(m, Call::Read(register))
}

// A write of a register.
#[tactic(auto, unfolding(module_rules::specs::Calls::perform_of))]
pub fn write(m: Module, register: u32, v: u16) -> Outcome
    ensures { result ≡ write_of m register v }
{
    perform(m, Call::Write(register, v))
}

// A tick of a host's own clock, with the levels SDI and SS: one edge, or none if the host is unframed and no word is loaded.
// SS counts for a frame client alone.
#[tactic(auto, unfolding(module_rules::specs::Calls::perform_of))]
pub fn tick(m: Module, sdi: bool, ss: bool) -> Outcome
    ensures { result ≡ tick_of m sdi ss }
{
    perform(m, Call::Tick(sdi, ss))
}

// The levels of SCK, SDI and SS are shown to a module that is clocked from its pin.
#[tactic(auto, unfolding(module_rules::specs::Calls::perform_of))]
pub fn pins(m: Module, sck: bool, sdi: bool, ss: bool) -> Outcome
    ensures { result ≡ pins_of m sck sdi ss }
{
    perform(m, Call::Pin(sck, sdi, ss))
}

// A clock step with the levels SCK, SDI and SS: the next edge of a host with its own clock, if any, which ignores SCK, and SS unless it is
// a frame client; any other module sees the levels.
#[tactic(auto, unfolding(module_rules::specs::Calls::perform_of))]
pub fn clock_step(m: Module, sck: bool, sdi: bool, ss: bool) -> Outcome
    ensures { result ≡ clock_step_of m sck sdi ss }
{
    perform(m, Call::ClockStep(sck, sdi, ss))
}

// The interrupt flag is cleared.
#[tactic(auto, unfolding(module_rules::specs::Calls::perform_of))]
pub fn clear(m: Module) -> Outcome
    ensures { result ≡ clear_of m }
{
    perform(m, Call::Clear)
}

// A linked run with an edge limit.
pub fn linked(host: Module, client: Module, limit: u32) -> Linked
    ensures { result ≡ linked_of host client limit }
{
    let mut h = module_memory_stores::memory_of(host);
    let mut c = module_memory_stores::memory_of(client);
    let answer = link_calls::linked(&mut h, &mut c, limit);
    let host = module_memory_looks::module_in(&h);
    let client = module_memory_looks::module_in(&c);
    Linked {
        answer,
        host,
        client,
    }
}
