// A trace file as bytes and numbers: its table of contents, its records by their places, and the bodies of its sections.
#![tactic(auto)]

ghost use Rattle.std.specs.Prelude.{◌+◌, ◌/◌, ◌%◌, ◌≤◌, ◌≡◌, length};
ghost use Rattle.trace_rules.specs.Trace.{byte_at, half_at, word_at, section_count, start_of, size_of, body_of};
ghost use Rattle.trace_numbers.specs.Places.{entry_at};

use trace_rules::Entry;

// The byte at a place, and 0 beyond the end.
fn byte_at(f: &[u8], i: usize) -> u8
    ensures { result ≡ byte_at f.now i }
{
    f.get(i).copied().unwrap_or(0)
}

// The number in two bytes of the file, the lower first. It stands beside the form with zeros beyond the end: what is read within a file needs one test,
// and not one for each byte.
fn whole_half(f: &[u8], i: usize) -> u16
    requires { i + 2 ≤ length f.now }
    ensures { result ≡ half_at f.now i }
{
    u16::from_le_bytes([f[i], f[i + 1]])
}

// The number in two bytes, of zeros beyond the end.
fn half_at(f: &[u8], i: usize) -> u16
    ensures { result ≡ half_at f.now i }
{
    if f.len() <= i {
        return 0;
    }
    if f.len() - i < 2 {
        return byte_at(f, i) as u16;
    }
    whole_half(f, i)
}

// The number in four bytes, the lowest first, of zeros beyond the end.
fn word_at(f: &[u8], i: usize) -> u32
    ensures { result ≡ word_at f.now i }
{
    if f.len() <= i {
        return 0;
    }
    if f.len() - i < 4 {
        let low = half_at(f, i);
        let high = half_at(f, i + 2);
        return low as u32 + 65536 * (high as u32);
    }
    u32::from_le_bytes([f[i], f[i + 1], f[i + 2], f[i + 3]])
}

// The number of sections.
pub fn count(f: &[u8]) -> u16
    ensures { result ≡ section_count f.now }
{
    half_at(f, 0)
}

// Where a section starts.
pub fn start(f: &[u8], k: u16) -> u32
    ensures { result ≡ start_of f.now k }
{
    word_at(f, 2 + 8 * (k as usize))
}

// How many bytes a section has.
pub fn size(f: &[u8], k: u16) -> u32
    ensures { result ≡ size_of f.now k }
{
    word_at(f, 6 + 8 * (k as usize))
}

// The record at a place in the file, by one test likewise.
fn whole_entry(f: &[u8], at: usize) -> Entry
    requires { at + 4 ≤ length f.now }
    ensures { result ≡ entry_at f.now at }
{
    let kind = f[at];
    let argument = f[at + 1];
    let value = whole_half(f, at + 2);
    Entry {
        kind,
        argument,
        value,
    }
}

// The record at a place, of zeros beyond the end.
pub fn entry_at(f: &[u8], at: usize) -> Entry
    ensures { result ≡ entry_at f.now at }
{
    if 4 <= f.len() && at <= f.len() - 4 {
        return whole_entry(f, at);
    }
    if f.len() <= at {
        return Entry {
            kind: 0,
            argument: 0,
            value: 0,
        };
    }
    let kind = byte_at(f, at);
    let argument = byte_at(f, at + 1);
    let value = half_at(f, at + 2);
    Entry {
        kind,
        argument,
        value,
    }
}

// Where the first record of a section lies, and how many records the section has, in a file that is not too long.
pub fn first_record(f: &[u8], k: u16) -> u16
    ensures { result ≡ start_of f.now k % 65536 }
{
    (start(f, k) % 65536) as u16
}

pub fn record_count(f: &[u8], k: u16) -> u16
    ensures { result ≡ size_of f.now k / 4 % 65536 }
{
    (size(f, k) / 4 % 65536) as u16
}

// A section's body, as part of the file itself.
pub fn section_body(f: &[u8], k: u16) -> &[u8]
    ensures { result.now ≡ body_of f.now k }
{
    let from = (start(f, k) as usize).min(f.len());
    let to = from + (size(f, k) as usize).min(f.len() - from);
    &f[from..to]
}
