// Linked runs, run on the proved call: a pair in each clock mode and width moves a full buffer each way, the limits 544 and
// 545, and framed ends. A line for a run is the mode (CKP, CKE, width), then the edges used or `E` and the refusal number; the lines
// under it are the words that the host and the client then read.
#![tactic(auto)]

use module_types::{Answer, Module};
use run_text::Output;
use std::io;
use std::io::Write;

// CON2 of a module in enhanced operation, and of the same as a frame host.
const ENHANCED: u16 = 0x0001;

const FRAMED: u16 = 0x8001;

// A run: what its line begins with, CON1 and CON2 of the host and of the client, and the limit.
#[derive(Clone, Copy)]
struct Case {
    mode: &'static str,
    host: [u16; 2],
    client: [u16; 2],
    limit: u32,
}

// A space and what a read of BUF answers: four hexadecimal digits, or E.
fn print_read(a: Answer, to: &mut Output<impl Write>) {
    if let Answer::Value(v) = a {
        to.print(b" ");
        to.print_hex(v);
    } else {
        to.print(b" E");
    }
}

// A module with this CON1 and CON2, enabled.
fn configured([con1, con2]: [u16; 2]) -> Module {
    let named = module_by_value::write(module_by_value::power_up(), 1, con1);
    let deep = module_by_value::write(named.after, 2, con2);
    module_by_value::write(deep.after, 0, 0x8000).after
}

// The module with eight words written, the first `first` and each later one `step` more.
fn filled(m: Module, first: u16, step: u16) -> Module {
    let mut now = m;
    let mut word = first;
    for _ in 0..8 {
        now = module_by_value::write(now, 3, word).after;
        word = word.wrapping_add(step);
    }
    now
}

// Nine reads of BUF on one line.
fn print_reads(m: Module, to: &mut Output<impl Write>) {
    let mut now = m;
    for _ in 0..9 {
        let read = module_by_value::read(now, 3);
        print_read(read.answer, to);
        now = read.after;
    }
    to.print(b"\n");
}

// A linked run of two modules, both filled: its line, and what both ends then read.
fn print_run(case: Case, to: &mut Output<impl Write>) {
    let host = filled(configured(case.host), 0xA5C3, 0x1111);
    let client = filled(configured(case.client), 0x3C5A, 0x0F0F);
    let run = module_by_value::linked(host, client, case.limit);
    let said = link_calls::link_said(run.answer);
    to.print(case.mode.as_bytes());
    if said.number == 0 {
        to.print(b" used ");
        to.print_decimal(said.edges as u64);
    } else {
        to.print(b" E ");
        to.print_decimal(said.number as u64);
    }
    to.print(b"\n");
    print_reads(run.host, to);
    print_reads(run.client, to);
}

// A run of two modules in enhanced operation, by their CON1.
fn enhanced(mode: &'static str, host: u16, client: u16, limit: u32) -> Case {
    Case {
        mode,
        host: [host, ENHANCED],
        client: [client, ENHANCED],
        limit,
    }
}

fn main(rt: HostRuntime) -> io::Result<()> {
    let mut output = Output::new(rt.stdout());
    let cases = [
        enhanced("CKP 0 CKE 0 w  8:", 0x0020, 0x0080, 544),
        enhanced("CKP 0 CKE 1 w  8:", 0x0120, 0x0180, 544),
        enhanced("CKP 1 CKE 0 w  8:", 0x0060, 0x00C0, 544),
        enhanced("CKP 1 CKE 1 w  8:", 0x0160, 0x01C0, 544),
        enhanced("CKP 0 CKE 0 w 16:", 0x0420, 0x0480, 544),
        enhanced("CKP 0 CKE 1 w 16:", 0x0520, 0x0580, 544),
        enhanced("CKP 1 CKE 0 w 16:", 0x0460, 0x04C0, 544),
        enhanced("CKP 1 CKE 1 w 16:", 0x0560, 0x05C0, 544),
        enhanced("CKP 0 CKE 0 w 16:", 0x0420, 0x0480, 545),
        enhanced("CKP 0 CKE 0 w 16:", 0x0420, 0x0480, 32),
        Case {
            mode: "framed host:",
            host: [0x0420, FRAMED],
            client: [0x0480, ENHANCED],
            limit: 544,
        },
        Case {
            mode: "framed client:",
            host: [0x0420, ENHANCED],
            client: [0x0480, FRAMED],
            limit: 544,
        },
    ];
    for case in cases {
        print_run(case, &mut output);
    }
    output.finish()?;
    Ok(())
}
