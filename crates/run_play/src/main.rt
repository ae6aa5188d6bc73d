// The program that plays a trace file: the file from standard input, and to standard output the number of its refusal, or the calls
// made and the registers and the interrupt flag of the module that they reach. It reads at most 65,536 bytes, one more than a
// file may have.
#![tactic(auto)]

use module_types::Answer;
use run_text::Output;
use std::io;
use std::io::Write;

// What a read of a register answers: four hexadecimal digits, and the end of the line.
fn print_read(a: Answer, to: &mut Output<impl Write>) {
    if let Answer::Value(v) = a {
        to.print_hex(v);
        to.print(b"\n");
    }
}

// The registers and the interrupt flag, a line each.
fn print_module(w: &mut [u16; 96], to: &mut Output<impl Write>) {
    to.print(b"STAT ");
    print_read(module_register_calls::read(w, 0), to);
    to.print(b"CON1 ");
    print_read(module_register_calls::read(w, 1), to);
    to.print(b"CON2 ");
    print_read(module_register_calls::read(w, 2), to);
    if module_memory_looks::interrupt_in(w) {
        to.print(b"interrupt 1\n");
    } else {
        to.print(b"interrupt 0\n");
    }
}

fn main(rt: HostRuntime) -> io::Result<()> {
    let mut file = [0u8; 65536];
    let n = run_text::read_full(&mut rt.stdin(), &mut file)?;
    let mut to = Output::new(rt.stdout());
    let mut spi = [0u16; 96];
    match trace_player::play(&file[..n], &mut spi) {
        Err(fault) => to.print_refusal(u8::from(fault)),
        Ok(count) => {
            to.print(b"OK ");
            to.print_decimal(count as u64);
            to.print(b"\n");
            print_module(&mut spi, &mut to);
        }
    }
    to.finish()?;
    Ok(())
}
