// The program that writes the waveform of a trace file: the file from standard input, and to standard output the number of its refusal,
// or a VCD file in which each call is one step of time. It reads at most 65,536 bytes, one more than a file may have.
#![tactic(auto)]

ghost use Rattle.module_memory.specs.Memory.{module_in};

use module_types::Call;
use run_text::Output;
use std::io;
use std::io::Write;
use trace_player::Player;
use trace_right::RightFile;
use trace_rules::Fault;
use wave_text::Waveform;

// A module in memory whose calls are written as a waveform. A trace makes at most 65,535 calls, each of them one step.
#[derive(Drop)]
struct Traced<W> {
    memory: [u16; 96],
    waveform: Waveform<W>,
}

impl<W: Write> Player for Traced<W> {
    ghost held = { λ traced. module_in traced.memory };

    fn perform(&mut self, call: Call) {
        self.waveform.step(&mut self.memory, Some(call));
    }
}

// Writes the waveform of a file.
fn write_waveform<W: Write + Drop>(file: RightFile<'_>, to: W) -> io::Result<W> {
    let mut memory = [0u16; 96];
    let waveform = Waveform::begin(&mut memory, to);
    let mut traced = Traced { memory, waveform };
    trace_player::play_file(file, &mut traced);
    traced.waveform.finish()
}

// Writes the number of a refusal.
fn write_refusal<W: Write + Drop>(fault: Fault, to: W) -> io::Result<W> {
    let mut to = Output::new(to);
    to.print_refusal(u8::from(fault));
    to.finish()
}

fn main(rt: HostRuntime) -> io::Result<()> {
    let mut file = [0u8; 65536];
    let n = run_text::read_full(&mut rt.stdin(), &mut file)?;
    match trace_counts::playable(&file[..n]) {
        Ok((right, _)) => write_waveform(right, rt.stdout())?,
        Err(fault) => write_refusal(fault, rt.stdout())?,
    };
    Ok(())
}
