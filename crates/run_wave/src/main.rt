// The program that writes the waveform of a script: the script from standard input, and to standard output a VCD file in which each
// line of the script is one step of time. It reads at most 65,535 bytes, as the script program does.
#![tactic(auto)]

ghost use Rattle.std.specs.Prelude.{◌≤◌, ◌≡◌, length};
ghost use Rattle.script_rules.specs.Script.{script_end};
ghost use Rattle.module_memory.specs.Memory.{module_in};

use script_lines::Lines;
use std::io;
use std::io::Write;
use wave_text::Waveform;

// Writes the waveform of a script, line by line.
fn write<W: Write + Drop>(script: &[u8], w: &mut [u16; 96], to: W) -> io::Result<W>
    requires { length script.now ≤ 65535 }
    ensures { module_in w.new ≡ script_end script.now }
{
    let mut waveform = Waveform::begin(w, to);
    for line in Lines::of(script) {
        waveform.step(w, line);
    }
    waveform.finish()
}

fn main(rt: HostRuntime) -> io::Result<()> {
    let mut script = [0u8; 65535];
    let n = run_text::read_full(&mut rt.stdin(), &mut script)?;
    let mut w = [0u16; 96];
    write(&script[..n], &mut w, rt.stdout())?;
    Ok(())
}
