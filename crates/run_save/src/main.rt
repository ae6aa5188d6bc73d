// The program that saves a script session as a trace file: the script from standard input, the file to standard output. It reads
// at most 65,535 bytes, as the script program does. A session that does not fit a trace file writes nothing.
#![tactic(auto)]

use run_text::Output;
use std::io;

fn main(rt: HostRuntime) -> io::Result<()> {
    let mut script = [0u8; 65535];
    let n = run_text::read_full(&mut rt.stdin(), &mut script)?;
    let mut to = Output::new(rt.stdout());
    let mut file = [0u8; 65535];
    if let Ok(length) = trace_writer::save(&script[..n], &mut file) {
        to.print(&file[..length as usize]);
    }
    to.finish()?;
    Ok(())
}
