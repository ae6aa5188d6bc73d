// What playing a trace file would count, and which of its records playing passes.
#![tactic(auto)]

ghost use Rattle.std.specs.Prelude.{◌/◌, ◌≤◌, ◌<◌, true, ◌≡◌, length, get_or, set, IfOk, MatchResult, Ok, Err};
ghost use Rattle.laws.specs.Choice.{when◌then◌else◌};
ghost use Rattle.trace_rules.specs.Trace.{section_count, entries_of, count_by, file_count, played_of};
ghost use Rattle.trace_counts.specs.Counts.{capped, weight_by};
ghost use Rattle.trace_counts.specs.Idle.{idle, PassedFrom};

use trace_right::RightFile;
use trace_rules::{Entry, Fault};

// What a record counts, if each section that may be played counts so much.
fn weight(counts: &[u32; 256], e: Entry) -> u64
    ensures { (result ≡ weight_by (λ j. get_or counts.now j 0) e) × (result ≤ 281470681743360) }
{
    if e.kind != 5 {
        return 1;
    }
    let count = counts[e.argument as usize];
    e.value as u64 * (1 + count as u64)
}

// A count, up to 65,536.
fn cap(total: u64) -> u32
    ensures { result ≡ capped total }
{
    total.min(65536) as u32
}

// Whether a record makes no call, since it plays a section zero times.
pub fn is_idle(e: Entry) -> bool
    ensures { result ≡ idle e }
{
    (e.kind == 5) & (e.value == 0)
}

// What the records of a section count, up to 65,536, from the last one on.
fn count_section(file: RightFile<'_>, k: u16, counts: &[u32; 256]) -> u32
    requires { k < section_count file.bytes.now }
    ensures { result ≡ capped (count_by (λ j. get_or counts.now j 0) (entries_of file.entry.bytes.now k)) }
{
    let first = trace_numbers::first_record(file.bytes, k);
    let records = trace_numbers::record_count(file.bytes, k);
    let mut total: u64 = 0;
    for i in (0..records).rev() {
        let e = trace_numbers::entry_at(file.bytes, (first + 4 * i) as usize);
        total += weight(counts, e);
    }
    cap(total)
}

// What playing counts, up to 65,536: all sections, each after those that it may play.
fn count_sections(file: RightFile<'_>) -> u32
    ensures { result ≡ capped (file_count file.entry.bytes.now) }
{
    // fixed memory, as the tables of levels and of idle records: there is no heap, and a file has at most 64 sections
    let mut counts = [0u32; 256];
    for k in (0..trace_numbers::count(file.bytes)).rev() {
        let total = count_section(file, k, &counts);
        counts[k as usize] = total;
    }
    counts[0]
}

// What playing a right file answers: the calls that it counts, if they are not too many.
pub fn count_calls(file: RightFile<'_>) -> Result<u16, Fault>
    ensures { result ≡ played_of file.entry.bytes.now }
{
    u16::try_from(count_sections(file)).map_err(|_| Fault::TooManyCalls)
}

// Judges a file with its calls: it is right, with as many calls as playing it makes, or why it is not played.
pub fn playable(f: &[u8]) -> Result<(RightFile<'_>, u16), Fault>
    ensures file { IfOk result (λ p. p.0.bytes.now ≡ f.now) }
    ensures answer { MatchResult result (λ p. Ok p.1 ≡ played_of f.now) (λ fault. Err fault ≡ played_of f.now) }
{
    let file = trace_right::judge(f)?;
    let calls = count_calls(file)?;
    Ok((file, calls))
}

// Looks a file over: what playing it answers.
pub fn look_over(f: &[u8]) -> Result<u16, Fault>
    ensures { result ≡ played_of f.now }
{
    playable(f).map(|(_, calls)| calls)
}

// Where the first record from one on lies that is not idle: at its own place, or further behind. Of an idle one the table says it.
fn land(next: &mut [u16; 16384], e: Entry, at: u16, behind: u16) -> u16
    requires { length next.old ≡ 16384 }
    ensures value { result ≡ (when idle e then behind else at) }
    ensures next_after { next.new ≡ (when idle e then set next.old (at / 4) behind else next.old) }
{
    if is_idle(e) {
        let slot = (at / 4) as usize;
        next[slot] = behind;
        return behind;
    }
    at
}

// The table for playing: for each idle record, where the first one behind it lies that is not idle. Records lie in fours up to the file's
// end, whatever section they are of.
pub fn pass_over(f: &[u8], next: &mut [u16; 16384])
    ensures { length f.now ≤ 65535 → PassedFrom f.now 0 next.new }
{
    if 65535 < f.len() {
        return;
    }
    let mut to = f.len() as u16;
    let odd = to % 4;
    for i in (0..to / 4).rev() {
        let at = odd + 4 * i;
        let e = trace_numbers::entry_at(f, at as usize);
        to = land(next, e, at, to);
    }
}

// A right file with the table of its idle records, by which playing passes them.
#[derive(Clone, Copy)]
pub struct Passable<'a> {
    pub file: RightFile<'a>,
    pub next: &'a [u16; 16384],
    pub ghost is_passed: { PassedFrom file.bytes.now 0 next.now },
}

impl<'a> Passable<'a> {
    // Fills the table that is lent.
    pub fn new(file: RightFile<'a>, next: &'a mut [u16; 16384]) -> Self
        ensures { result.file ≡ file.entry }
    {
        pass_over(file.bytes, next);
        Passable { file, next }
    }
}
