// What a caller sees without changing anything: the interrupt flag, the levels of SCK, SDO and SS, and answers in the
// paper's numbers.
#![tactic(auto)]

ghost use Rattle.std.specs.Prelude.{◌≡◌};
ghost use Rattle.module_rules.specs.Refusals.{number_of, said_of};
ghost use Rattle.module_rules.specs.Calls.{interrupt_of, sck_of, undriven_by, sdo_by, sdo_of, ss_by};

use module_types::{Answer, Module, Output, Pins, Refusal, Said, Settings};

// The paper's number for a refusal. No From: it would stand in module_types, below number_of, which this promises.
#[tactic(auto, unfolding(module_rules::specs::Refusals::number_of))]
pub fn refusal_number(r: Refusal) -> u8
    ensures { result ≡ number_of r }
{
    match r {
        Refusal::NoSuchRegister => 1,
        Refusal::Disabled => 2,
        Refusal::Enabled => 3,
        Refusal::TransmitFull => 5,
        Refusal::ReceiveEmpty => 6,
        Refusal::WrongClock => 7,
        Refusal::NoRate => 8,
        Refusal::UnreadableLine => 9,
        Refusal::DifferentModes => 10,
        Refusal::TooManyEdges => 11,
        Refusal::Undivided => 13,
        Refusal::LateSampling => 14,
        Refusal::UnselectedCke => 15,
        Refusal::Overflowed => 16,
        Refusal::NoSuchDepth => 25,
    }
}

// An answer in the paper's numbers, of which said_of speaks: no From, for the same reason.
pub fn said(a: Answer) -> Said
    ensures { result ≡ said_of a }
{
    let nothing = Said {
        kind: 0,
        number: 0,
        value: 0,
        edges: 0,
    };
    match a {
        Answer::Refused(r) => Said {
            number: refusal_number(r),
            ..nothing
        },
        Answer::Done => Said { kind: 1, ..nothing },
        Answer::Value(value) => Said {
            kind: 2,
            value,
            ..nothing
        },
        Answer::NoEdge => Said { kind: 3, ..nothing },
        Answer::Edge => Said {
            kind: 4,
            edges: 1,
            ..nothing
        },
    }
}

// The interrupt flag.
#[tactic(auto, unfolding(module_rules::specs::Calls::interrupt_of))]
pub fn interrupt(m: Module) -> bool
    ensures { result ≡ interrupt_of m }
{
    m.engine.interrupt
}

// The remembered clock level.
#[tactic(auto, unfolding(module_rules::specs::Calls::sck_of))]
pub fn sck(m: Module) -> bool
    ensures { result ≡ sck_of m }
{
    m.engine.pins.sck
}

// The SDO pin, by settings and pins: its level, or undriven.
pub fn sdo_by(s: Settings, pins: Pins) -> Output
    ensures { result ≡ sdo_by (undriven_by s pins) pins }
{
    if !s.spien | (s.con1.dissdo | (module_settings::ssen_client(s) & pins.ss)) {
        Output::Undriven
    } else if pins.sdo {
        Output::High
    } else {
        Output::Low
    }
}

// The SDO pin of a module.
#[tactic(auto, unfolding(module_rules::specs::Calls::undriven, module_rules::specs::Calls::sdo_of))]
pub fn sdo(m: Module) -> Output
    ensures { result ≡ sdo_of m }
{
    sdo_by(m.settings, m.engine.pins)
}

// The SS pin, by settings and pins: a frame host drives it at FRMPOL's level during a pulse, else at the other one.
pub fn ss_by(s: Settings, pins: Pins) -> Output
    ensures { result ≡ ss_by s pins }
{
    if !(s.spien & module_settings::is_frame_host(s)) {
        Output::Undriven
    } else if pins.pulse == s.con2.frmpol {
        Output::High
    } else {
        Output::Low
    }
}
