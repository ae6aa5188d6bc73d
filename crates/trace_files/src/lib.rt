// A trace file before it is played, under one name: its numbers (trace_numbers), whether it is right (trace_right), and what it would make
// (trace_counts). None of it needs a module. The functions are alike since each passes on one that is proved below; docs/MAP.md names
// the crate as that one name.
#![tactic(auto)]

ghost use Rattle.std.specs.Prelude.{◌/◌, ◌%◌, ◌≤◌, ◌≡◌, length};
ghost use Rattle.laws.specs.Choice.{when◌then◌else◌};
ghost use Rattle.trace_rules.specs.Trace.{section_count, start_of, size_of, body_of, right_record, played_of};
ghost use Rattle.trace_files.specs.Places.{entry_at, stated_end, ended};
ghost use Rattle.trace_files.specs.Passes.{raised_one};
ghost use Rattle.trace_files.specs.Idle.{idle, PassedFrom};

use trace_rules::{Entry, Fault};

// The number of sections.
pub fn count(f: &[u8]) -> u16
    ensures { result ≡ section_count f.now }
{
    trace_numbers::count(f)
}

// How many bytes a section has.
pub fn size(f: &[u8], k: u16) -> u32
    ensures { result ≡ size_of f.now k }
{
    trace_numbers::size(f, k)
}

// Where the last section ends, if the table of contents is whole and gapless and the file not too long.
pub fn stated_end(f: &[u8]) -> Option<u64>
    ensures { result ≡ ended (stated_end f.now) }
{
    trace_right::stated_end(f)
}

// The record at a place, of zeros beyond the end.
pub fn entry_at(f: &[u8], at: usize) -> Entry
    ensures { result ≡ entry_at f.now at }
{
    trace_numbers::entry_at(f, at)
}

// Where the first record of a section lies, and how many records the section has, in a file that is not too long.
pub fn first_record(f: &[u8], k: u16) -> u16
    ensures { result ≡ start_of f.now k % 65536 }
{
    trace_numbers::first_record(f, k)
}

pub fn record_count(f: &[u8], k: u16) -> u16
    ensures { result ≡ size_of f.now k / 4 % 65536 }
{
    trace_numbers::record_count(f, k)
}

// Whether a record of a section of some level is right. If so, the section that it plays is raised above that level.
pub fn take_record(f: &[u8], k: u16, levels: &mut [u8; 256], level: u8, e: Entry) -> bool
    ensures value { result ≡ right_record (section_count f.now) level k e }
    ensures levels_after { levels.new ≡ (when result then raised_one level levels.old e else levels.old) }
{
    trace_right::take_record(f, k, levels, level, e)
}

// Whether a record makes no call, since it plays a section zero times.
pub fn is_idle(e: Entry) -> bool
    ensures { result ≡ idle e }
{
    trace_counts::is_idle(e)
}

// Looks a file over: what playing it answers.
pub fn look_over(f: &[u8]) -> Result<u16, Fault>
    ensures { result ≡ played_of f.now }
{
    trace_counts::look_over(f)
}

// The table for playing: for each idle record, where the first one behind it lies that is not idle. Records lie in fours up to the file's
// end, whatever section they are of.
pub fn pass_over(f: &[u8], next: &mut [u16; 16384])
    ensures { length f.now ≤ 65535 → PassedFrom f.now 0 next.new }
{
    trace_counts::pass_over(f, next);
}

// A section's body, as part of the file itself.
pub fn section_body(f: &[u8], k: u16) -> &[u8]
    ensures { result.now ≡ body_of f.now k }
{
    trace_numbers::section_body(f, k)
}
