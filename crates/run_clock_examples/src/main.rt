// Document 01's clock reports, run on the proved call. Each line is the instruction rate, then `E` and the refusal number,
// `internal` with the rate and the bit time, `external` with the float that the clock must stay below, or `none`. A float
// is printed where it is a whole number, and as `-` where it is not.
#![tactic(auto)]

use module_types::Module;
use run_text::Output;
use std::io;
use std::io::Write;

// A module with this CON1, enabled or not.
fn module(con1: u16, on: bool) -> Module {
    let m = module_by_value::write(module_by_value::power_up(), 1, con1).after;
    if on {
        module_by_value::write(m, 0, 0x8000).after
    } else {
        m
    }
}

// A space and a float.
fn print_float(x: f64, to: &mut Output<impl Write>) {
    to.print(b" ");
    if x > -1.0 && x < 18446744073709551616.0 {
        let n = std::num::truncating_f64_to_u64(x);
        if std::num::nearest_u64_to_f64(n) == x {
            to.print_decimal(n);
            return;
        }
    }
    to.print(b"-");
}

// The line of one report.
fn print_report(m: Module, f: u32, to: &mut Output<impl Write>) {
    let said = clock_report::said(clock_report::report(m, f));
    to.print_decimal(f as u64);
    if said.number > 0 {
        to.print(b" E ");
        to.print_decimal(said.number as u64);
    } else if said.internal {
        to.print(b" internal");
        print_float(said.rate, to);
        print_float(said.bittime, to);
    } else if said.external {
        to.print(b" external");
        print_float(said.below, to);
    } else {
        to.print(b" none");
    }
    to.print(b"\n");
}

fn main(rt: HostRuntime) -> io::Result<()> {
    let mut output = Output::new(rt.stdout());
    // CON1, whether the module is enabled, and the instruction rate
    let reports = [
        // the paper's two: PPRE 2 and SPRE 6 divide by 8
        (0x003A, true, 40000000),
        (0x003A, true, 0),
        // a bit time that is a whole number, and neither float one
        (0x003A, true, 4),
        (0x0024, true, 40000000),
        // the largest whole rates, divided by 2 and by 512
        (0x003B, true, 4294967294),
        (0x0020, true, 4294966784),
        // clocked from the pin: a client, and a host with DISSCK
        (0x001A, true, 40000000),
        (0x103A, true, 4294967295),
        // disabled: none, but the rate 0 is refused first
        (0x003A, false, 40000000),
        (0x003A, false, 0),
    ];
    for (con1, on, rate) in reports {
        print_report(module(con1, on), rate, &mut output);
    }
    output.finish()?;
    Ok(())
}
