// Whether a trace file is right: its contents, and its records with the levels of their sections.
#![tactic(auto)]

ghost use Rattle.std.specs.Prelude.{◌<◌, true, ◌≡◌, get_or, MatchResult};
ghost use Rattle.laws.specs.Choice.{when◌then◌else◌};
ghost use Rattle.trace_rules.specs.Trace.{section_count, in_fours, contents_right, entries_of, is_play, section_level, right_record, all_of, records_right};
ghost use Rattle.trace_right.specs.Ends.{gapless_end, stated_end, ended};
ghost use Rattle.trace_right.specs.Judged.{judged_of};
ghost use Rattle.trace_right.specs.Levels.{raised_one, raised_by};

use trace_rules::{Entry, Fault};

// Where so many sections end, if each starts where the one before it ends and the first behind the table.
fn gapless_end(f: &[u8], n: u16) -> Option<u64>
    requires { n ≡ section_count f.now }
    ensures { result ≡ ended (gapless_end f.now n) }
{
    let mut at = 2 + 8 * (n as u64);
    for k in 0..n {
        let here = trace_numbers::start(f, k) as u64;
        let bytes = trace_numbers::size(f, k);
        if here != at {
            return None;
        }
        at += bytes as u64;
    }
    Some(at)
}

// Whether so many sections have whole records.
fn in_fours(f: &[u8], n: u16) -> bool
    ensures { result ≡ in_fours f.now n }
{
    (0..n).all(|k| trace_numbers::size(f, k) % 4 == 0)
}

// Where the last section ends, if the table of contents is whole and gapless and the file not too long.
pub fn stated_end(f: &[u8]) -> Option<u64>
    ensures { result ≡ ended (stated_end f.now) }
{
    if 65535 < f.len() {
        return None;
    }
    let n = trace_numbers::count(f);
    if n < 1 || 64 < n {
        return None;
    }
    if f.len() < 2 + 8 * (n as usize) {
        return None;
    }
    gapless_end(f, n)
}

// Whether the contents are right, and the file is not too long.
fn contents_right(f: &[u8]) -> bool
    ensures { result ≡ contents_right f.now }
{
    let Some(end) = stated_end(f) else {
        return false;
    };
    end == f.len() as u64 && in_fours(f, trace_numbers::count(f))
}

// Whether a record of a section of some level is right. Its argument and its value stand in one number, which is asked once. Kinds are found by
// halves: by one test after another, of which the compiler made a jump through a table, salvage took 2.35 times plain C's time, and as it stands 1.60
// (docs/SPEED.md, 7.0.2). A `match` was not measured there by itself; it asks for just such a jump.
fn record_right(f: &[u8], k: u16, level: u8, e: Entry) -> bool
    ensures { result ≡ right_record (section_count f.now) level k e }
{
    let Entry {
        kind,
        argument,
        value,
    } = e;
    let rest = argument as u32 + 256 * (value as u32);
    if kind < 4 {
        if kind < 2 {
            if kind == 0 {
                return argument <= 3;
            }
            return rest <= 3;
        }
        if kind == 2 {
            return (rest < 8) & !(rest / 2 % 2 == 1);
        }
        return rest < 8;
    }
    if kind == 4 {
        return rest == 0;
    }
    if kind == 5 {
        let named = argument as u16;
        let n = trace_numbers::count(f);
        return (k < named) & ((named < n) & (level < 8));
    }
    false
}

// A play record raises the section that it names above the level of its own.
fn raise(levels: &mut [u8; 256], level: u8, e: Entry)
    requires { is_play e ≡ true → level < 8 }
    ensures { levels.new ≡ raised_one level levels.old e }
{
    if e.kind != 5 {
        return;
    }
    let named = e.argument as usize;
    if level < levels[named] {
        return;
    }
    levels[named] = level + 1;
}

// Whether a record of a section of some level is right. If so, the section that it plays is raised above that level.
pub fn take_record(f: &[u8], k: u16, levels: &mut [u8; 256], level: u8, e: Entry) -> bool
    ensures value { result ≡ right_record (section_count f.now) level k e }
    ensures levels_after { levels.new ≡ (when result then raised_one level levels.old e else levels.old) }
{
    if !record_right(f, k, level, e) {
        return false;
    }
    raise(levels, level, e);
    true
}

// Whether every record of a section is right. If so, the sections that it plays are raised.
// The contents are right by a clause and by no type here: RightFile is made only after both have answered.
fn section_right(f: &[u8], k: u16, levels: &mut [u8; 256]) -> bool
    requires f_value { (contents_right f.now ≡ true) × (k < section_count f.now) }
    requires k_value { get_or levels.old k 0 ≡ section_level (entries_of f.now) k }
    ensures value { result ≡ all_of f.now k (entries_of f.now k) }
    ensures levels_after { result ≡ true → levels.new ≡ raised_by (section_level (entries_of f.now) k) levels.old (entries_of f.now k) }
{
    let level = levels[k as usize];
    let first = trace_numbers::first_record(f, k);
    let records = trace_numbers::record_count(f, k);
    for i in 0..records {
        let e = trace_numbers::entry_at(f, (first + 4 * i) as usize);
        if !take_record(f, k, levels, level, e) {
            return false;
        }
    }
    true
}

// Whether every record of a file with right contents is right.
fn records_right(f: &[u8]) -> bool
    requires { contents_right f.now ≡ true }
    ensures { result ≡ records_right f.now }
{
    let mut levels = [1u8; 256];
    for k in 0..trace_numbers::count(f) {
        if !section_right(f, k, &mut levels) {
            return false;
        }
    }
    true
}

// A file whose contents and records are right.
#[derive(Clone, Copy)]
pub struct RightFile<'a> {
    pub bytes: &'a [u8],
    pub ghost is_right: { (contents_right bytes.now ≡ true) × (records_right bytes.now ≡ true) },
}

// Judges a file: it is right, or what of it is found wrong first.
pub fn judge(f: &[u8]) -> Result<RightFile<'_>, Fault>
    ensures { MatchResult result (λ right. right.bytes.now ≡ f.now) (λ fault. Err fault ≡ judged_of f.now) }
{
    if !contents_right(f) {
        return Err(Fault::BadContents);
    }
    if !records_right(f) {
        return Err(Fault::BadRecord);
    }
    Ok(RightFile { bytes: f })
}
