// Plays a trace file: the calls of section 0, with those of each section that it plays, on a module in memory or on another player.
#![tactic(auto)]

ghost use Rattle.std.specs.Prelude.{◌<◌, true, ◌≡◌};
ghost use Rattle.module_types.specs.declared.Module.{Module};
ghost use Rattle.module_rules.specs.Calls.{perform_of, after_calls};
ghost use Rattle.trace_rules.specs.Trace.{section_count, is_play, call_of, play_calls, file_calls};
ghost use Rattle.module_memory.specs.Memory.{module_in};
ghost use Rattle.trace_player.specs.Playing.{entry_calls, Plays};

use module_types::Call;
use trace_counts::Passable;
use trace_right::RightFile;
use trace_rules::{Entry, Fault};

// What makes the calls of a trace: it holds a module, and takes one call after the other.
pub trait Player {
    ghost held: { Self → Module };

    fn perform(&mut self, call: Call)
        ensures { held self.new ≡ (perform_of (held self.old) call).after };
}

// A module in memory.
impl Player for [u16; 96] {
    ghost held = { λ w. module_in w };

    fn perform(&mut self, call: Call) {
        match call {
            Call::Write(register, value) => {
                module_by_number::write(self, register, value);
            }
            Call::Read(register) => {
                // a read of BUF alone changes something
                if register == 3 {
                    module_by_number::read(self, 3);
                }
            }
            Call::Tick(sdi, ss) => {
                if !module_midword::tick_within(self, sdi, ss) {
                    module_by_number::tick(self, sdi, ss);
                }
            }
            Call::Pin(sck, sdi, ss) => {
                if !module_midword::pins_within(self, sck, sdi, ss) {
                    module_by_number::pins(self, sck, sdi, ss);
                }
            }
            Call::ClockStep(sck, sdi, ss) => {
                module_by_number::clock_step(self, sck, sdi, ss);
            }
            Call::Clear => {
                module_by_number::clear(self);
            }
        }
    }
}

// The call of a record that plays no section.
// No From: the record of a play is no call, and this is never asked for one.
fn call_of(e: Entry) -> Call
    ensures { result ≡ call_of e }
{
    let sdi = e.argument % 2 == 1;
    let sck = e.argument / 2 % 2 == 1;
    let ss = e.argument / 4 % 2 == 1;
    match e.kind {
        0 => Call::Write(e.argument as u32, e.value),
        1 => Call::Read(e.argument as u32),
        2 => Call::Tick(sdi, ss),
        3 => Call::Pin(sck, sdi, ss),
        _ => Call::Clear,
    }
}

// Plays a record: makes its call, or plays the section that it names as often as it says.
#[cycle(play_entry_play_section)]
fn play_entry<P: Player>(trace: &Passable<'_>, left: u8, e: Entry, player: &mut P)
    requires { is_play e ≡ true → e.argument < section_count trace.now.file.bytes.now }
    ensures { P.held player.new ≡ after_calls (P.held player.old) (entry_calls trace.now.file.bytes.now left e) }
{
    if e.kind != 5 {
        player.perform(call_of(e));
        return;
    }
    for _ in 0..e.value {
        play_section(trace, e.argument as u16, left, player);
    }
}

// Plays a section with so many levels left, one fewer for the sections that it plays. Idle records are passed: the table says where the
// next record lies, so the place is no count.
#[cycle(play_entry_play_section)]
fn play_section<P: Player>(trace: &Passable<'_>, k: u16, left: u8, player: &mut P)
    requires { k < section_count trace.now.file.bytes.now }
    ensures { P.held player.new ≡ after_calls (P.held player.old) (play_calls trace.now.file.bytes.now left k) }
{
    if left == 0 {
        return;
    }
    let f = trace.file.bytes;
    let mut at = trace_numbers::first_record(f, k);
    let mut records = trace_numbers::record_count(f, k);
    while 0 < records {
        let e = trace_numbers::entry_at(f, at as usize);
        if trace_counts::is_idle(e) {
            let to = trace.next[(at / 4) as usize];
            let passed = (to - at) / 4;
            if records <= passed {
                return;
            }
            records -= passed;
            at = to;
            continue;
        }
        play_entry(trace, left - 1, e, player);
        records -= 1;
        at += 4;
    }
}

// Makes the calls of a right file, by the table of its idle records, which has 32 kB.
pub fn play_file<P: Player>(file: RightFile<'_>, player: &mut P)
    ensures { P.held player.new ≡ after_calls (P.held player.old) (file_calls file.entry.bytes.now) }
{
    let mut next = [0u16; 16384];
    let trace = Passable::new(file, &mut next);
    play_section(&trace, 0, 8, player);
}

// Plays a file: the answer is why it is not played, or the calls made. The table is made where there are any.
pub fn play(f: &[u8], w: &mut [u16; 96]) -> Result<u16, Fault>
    ensures { Plays f.now result w.old w.new }
{
    let file = trace_right::judge(f)?;
    let count = trace_counts::count_calls(file)?;
    module_memory_stores::power_up(w);
    if 0 < count {
        play_file(file, w);
    }
    Ok(count)
}
