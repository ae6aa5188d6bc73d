// One SPI module in memory: tick and pin call over the clock step, any call by its name, and what a caller sees. Any numbers are answered. A
// refused call, and a tick that makes no edge, leave every number as it was.
#![tactic(auto)]

ghost use Rattle.std.specs.Prelude.{true, false, ◌≡◌};
ghost use Rattle.module_types.specs.declared.Answer.TheVariants.{Done, Edge};
ghost use Rattle.module_rules.specs.Edge.{levels, stepped};
ghost use Rattle.module_rules.specs.Calls.{edge_for, tick_of, pins_of, perform_of, sdo_of, ss_of};
ghost use Rattle.module_memory.specs.Memory.{module_in, Steps};
ghost use Rattle.module_answers.specs.Answered.{Answers, turned};

use module_types::{Answer, Call, Output, Refusal};

// An edge to the other level of SCK, and the levels SCK, SDI and SS seen, by the short way where it goes.
pub fn turn(w: &mut [u16; 96], sdi: bool)
    ensures { Steps (λ s. turned s sdi) w.old w.new }
{
    if !module_midword::turn_within(w, sdi) {
        let pins = module_memory_looks::pins_in(w);
        module_edges::edge(w, !pins.sck, sdi);
    }
}

pub fn see(w: &mut [u16; 96], sck: bool, sdi: bool, ss: bool)
    ensures { Steps (λ s. stepped s (levels sck sdi ss)) w.old w.new }
{
    if !module_midword::see_within(w, sck, sdi, ss) {
        module_edges::see_any(w, sck, sdi, ss);
    }
}

// What a tick answers for a clock step: one that is done is an edge made.
fn edge_for(a: Answer) -> Answer
    ensures { result ≡ edge_for a }
{
    match a {
        Answer::Done => Answer::Edge,
        _ => a,
    }
}

// A tick of a host's own clock, with the levels SDI and SS: one edge, or none of an unframed host with no word loaded.
pub fn tick(w: &mut [u16; 96], sdi: bool, ss: bool) -> Answer
    ensures { Answers (tick_of (module_in w.old) sdi ss) result w.old w.new }
{
    let s = module_memory_looks::settings_in(w);
    if !s.spien {
        return Answer::Refused(Refusal::Disabled);
    }
    if !module_settings::own_clock(s) {
        return Answer::Refused(Refusal::WrongClock);
    }
    edge_for(module_edges::clock_step(w, false, sdi, ss))
}

// The levels SCK, SDI and SS are shown to a module that is clocked from its pin.
// No one function with `tick`: they refuse opposite roles and tell a step otherwise, and one that is handed the role is no shorter.
pub fn pins(w: &mut [u16; 96], sck: bool, sdi: bool, ss: bool) -> Answer
    ensures { Answers (pins_of (module_in w.old) sck sdi ss) result w.old w.new }
{
    let s = module_memory_looks::settings_in(w);
    if !s.spien {
        return Answer::Refused(Refusal::Disabled);
    }
    if module_settings::own_clock(s) {
        return Answer::Refused(Refusal::WrongClock);
    }
    module_edges::clock_step(w, sck, sdi, ss)
}

// Any call by its name.
pub fn perform(w: &mut [u16; 96], c: Call) -> Answer
    ensures { Answers (perform_of (module_in w.old) c) result w.old w.new }
{
    match c {
        Call::Read(register) => module_register_calls::read(w, register),
        Call::Write(register, v) => module_register_calls::write(w, register, v),
        Call::Tick(sdi, ss) => tick(w, sdi, ss),
        Call::Pin(sck, sdi, ss) => pins(w, sck, sdi, ss),
        Call::ClockStep(sck, sdi, ss) => module_edges::clock_step(w, sck, sdi, ss),
        Call::Clear => module_register_calls::clear(w),
    }
}

// The SDO pin: its level, or undriven.
pub fn sdo(w: &[u16; 96]) -> Output
    ensures { result ≡ sdo_of (module_in w.now) }
{
    let s = module_memory_looks::settings_in(w);
    let pins = module_memory_looks::pins_in(w);
    module_looks::sdo_by(s, pins)
}

// The SS pin: the level at which a frame host drives it, or undriven.
pub fn ss(w: &[u16; 96]) -> Output
    ensures { result ≡ ss_of (module_in w.now) }
{
    let s = module_memory_looks::settings_in(w);
    let pins = module_memory_looks::pins_in(w);
    module_looks::ss_by(s, pins)
}
