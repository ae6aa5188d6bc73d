// The script program of document 01: a script from standard input, its answers to standard output. It reads at most the
// first 65,535 bytes, and ends there as at the end of input.
#![tactic(auto)]

use run_text::Output;
use std::io;

fn main(rt: HostRuntime) -> io::Result<()> {
    let mut script = [0u8; 65535];
    let n = run_text::read_full(&mut rt.stdin(), &mut script)?;
    let mut to = Output::new(rt.stdout());
    let mut spi = [0u16; 96];
    let mut place = script_player::start(&mut spi);
    let mut out = [0u8; 4096];
    for _ in 0..256u32 {
        let piece = script_player::piece(&script[..n], &mut spi, place, &mut out);
        let written = piece.written;
        if written == 0 {
            break;
        }
        to.print(&out[..written]);
        if to.failed.is_some() {
            break;
        }
        place = piece.to;
    }
    to.finish()?;
    Ok(())
}
