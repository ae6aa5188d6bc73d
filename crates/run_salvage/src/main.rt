// The program that salvages a cut trace file: the file from standard input, and to standard output a line with the number of its
// refusal, or with the sections cut and the bytes lost and behind it the new file. It reads at most 65,536 bytes, one more than a file
// may have, so that a longer one is refused and never taken for its beginning.
#![tactic(auto)]

use run_text::Output;
use std::io;
use std::io::Write;
use trace_salvage_rules::Salvaged;

// The answer's line, and the new file, which is the beginning of what was lent.
fn print_salvaged(salvaged: Salvaged, lent: &[u8], to: &mut Output<impl Write>) {
    to.print(b"OK ");
    to.print_decimal(salvaged.cut as u64);
    to.print(b" ");
    to.print_decimal(salvaged.lost as u64);
    to.print(b"\n");
    if let Some(file) = lent.get(..salvaged.length as usize) {
        to.print(file);
    }
}

fn main(rt: HostRuntime) -> io::Result<()> {
    let mut file = [0u8; 65536];
    let n = run_text::read_full(&mut rt.stdin(), &mut file)?;
    let mut to = Output::new(rt.stdout());
    let mut lent = [0u8; 65535];
    match trace_writer::salvage(&file[..n], &mut lent) {
        Ok(salvaged) => print_salvaged(salvaged, &lent, &mut to),
        Err(fault) => to.print_refusal(u8::from(fault)),
    }
    to.finish()?;
    Ok(())
}
