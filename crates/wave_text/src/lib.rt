// A waveform on its way to an output: what the two programs share that write one, of a script and of a trace file.
#![tactic(auto)]

ghost use Rattle.std.specs.Prelude.{◌+◌, ◌%◌, ◌^◌, ◌≡◌, IfOk, IsNone};
ghost use Rattle.module_rules.specs.Calls.{powered_up};
ghost use Rattle.script_rules.specs.Script.{line_after};
ghost use Rattle.module_memory.specs.Memory.{module_in};
ghost use Rattle.wave_steps.specs.Wave.{shown_of, line_shown, step_text, unknown};
ghost use Rattle.wave_text.specs.File.{opening, closing};
ghost use Rattle.std.specs.Io.KnownBytes.{Appends};

use module_types::Call;
use run_text::Output;
use std::io;
use std::io::Write;
use wave_steps::Shown;

// The output, what the waveform shows, and the time of the next step.
#[derive(Drop)]
pub struct Waveform<W> {
    pub to: Output<W>,
    pub shown: Shown,
    pub time: u32,
}

impl<W: Write> Waveform<W> {
    // A waveform begins with a module at power-up: the head, and all values.
    pub fn begin(w: &mut [u16; 96], to: W) -> Waveform<W>
    where
        W: Drop,
        ensures powered { module_in w.new ≡ powered_up }
        ensures shown { result.shown ≡ shown_of powered_up unknown }
        ensures time { result.time ≡ 1 }
        ensures text { IsNone result.to.failed → Appends (W.contents to) (W.contents result.to.to) (opening result.shown) }
    {
        let mut to = Output::new(to);
        to.print(&wave_steps::head());
        let mut out = [0u8; 128];
        let started = wave_steps::start(w, &mut out);
        to.print(&out[..started.written]);
        to.print(b"$end\n");
        Waveform {
            to,
            shown: started.shown,
            time: 1,
        }
    }

    // A line is played, and what it changed is written with its time.
    pub fn step(&mut self, w: &mut [u16; 96], line: Option<Call>)
        ensures played { module_in w.new ≡ line_after (module_in w.old) line }
        ensures shown { self.new.shown ≡ line_shown self.old.shown.sdi (module_in w.old) line }
        ensures time { self.new.time ≡ (self.old.time + 1) % 2 ^ 32 }
        ensures text { IsNone self.new.to.failed → Appends (W.contents self.old.to.to) (W.contents self.new.to.to) (step_text self.old.time self.old.shown self.new.shown) }
        ensures kept { IsNone self.new.to.failed → IsNone self.old.to.failed }
    {
        let mut out = [0u8; 128];
        let stepped = wave_steps::step(w, line, self.shown, self.time, &mut out);
        self.to.print(&out[..stepped.written]);
        self.shown = stepped.shown;
        self.time = self.time.wrapping_add(1);
    }

    // The time at which the last step ends; then the writer, or the error that was kept.
    pub fn finish(mut self) -> io::Result<W>
    where
        W: Drop,
        ensures kept { IfOk result (λ _. IsNone self.to.failed) }
        ensures text { IfOk result (λ w. Appends (W.contents self.to.to) (W.contents w) (closing self.time)) }
    {
        self.to.print(b"#");
        self.to.print_decimal(self.time as u64);
        self.to.print(b"\n");
        let Waveform { to, .. } = self;
        to.finish()
    }
}
