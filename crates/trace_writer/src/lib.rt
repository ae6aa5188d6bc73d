// Trace files written at the start of a lent buffer: a script session that is saved, and what is salvaged of a cut file. In both the
// sizes of the sections are counted first, and only if the file fits, its table of contents and its sections are written.
#![tactic(auto)]

ghost use Rattle.std.specs.Prelude.{◌+◌, ◌*◌, ◌≤◌, ◌<◌, true, ◌≡◌, length, get_or};
ghost use Rattle.script_rules.specs.Script.{lines_of};
ghost use Rattle.script_rules.specs.Texts.{Written};
ghost use Rattle.trace_rules.specs.Trace.{section_count, entries_in};
ghost use Rattle.trace_rules.specs.TraceBytes.{entry};
ghost use Rattle.trace_right.specs.Levels.{raised_by};
ghost use Rattle.trace_save_rules.specs.Save.{kept_from, wires, saved_of, buffer_after};
ghost use Rattle.trace_salvage_rules.specs.Salvage as salvage-rules;
ghost use Rattle.trace_salvage_rules.specs.Salvage.{beginning, salvageable, salvaged_file, sections_cut, salvaged_of};
ghost use Rattle.trace_writer.specs.Heads.{kept_record, KeptRecord, head_of, put_records, put_parts, Within, KeptSizes};

use module_types::Call;
use script_lines::Lines;
use trace_salvage_rules::{SalvageFault, Salvaged};
use trace_save_rules::NoRoom;

// Some bytes. The place goes beside the buffer here, in put_records and in put_parts: `Text` of script_digits holds an array of a length known
// beforehand, and what is lent here has any length, so that these three functions would take a struct of their own.
fn put(out: &mut [u8], at: usize, bytes: &[u8]) -> usize
    requires { at + length bytes.now ≤ length out.old }
    ensures { Written bytes.now out.old at out.new result }
{
    // byte by byte: `copy_from_slice`, of a length that is not known beforehand, would need `memmove` from outside the library
    for i in 0..bytes.len() {
        out[at + i] = bytes[i];
    }
    at + bytes.len()
}

// What stands before the sections of a file: their number, and the table of contents for sections of these sizes.
fn put_head(out: &mut [u8], sizes: &[u16]) -> usize
    requires { (length sizes.now ≤ 64) × (2 + 8 * length sizes.now ≤ length out.old) }
    ensures { Written (head_of (length sizes.now) sizes.now) out.old 0 out.new result }
{
    let n = sizes.len() as u16;
    let mut place = put(out, 0, &n.to_le_bytes());
    let mut at = 2 + 8 * u32::from(n);
    for size in sizes {
        let size = u32::from(*size);
        place = put(out, place, &at.to_le_bytes());
        place = put(out, place, &size.to_le_bytes());
        at += size;
    }
    place
}

// The levels of the wires as an argument.
fn argument_of(sdi: bool, sck: bool, ss: bool) -> u8
    ensures { result ≡ wires sdi sck ss }
{
    (lent::weigh(sdi, 1) + lent::weigh(sck, 2) + lent::weigh(ss, 4)) as u8
}

// A record.
fn entry(kind: u8, argument: u8, value: u16) -> [u8; 4]
    ensures { result ≡ entry kind argument value }
{
    let [low, high] = value.to_le_bytes();
    [kind, argument, low, high]
}

// The record of a call that is kept: it names no register above 3, and is no clock step.
fn record_of(c: Call) -> Option<[u8; 4]>
    ensures { result ≡ kept_record c }
{
    match c {
        Call::Write(register, value) if register <= 3 => Some(entry(0, register as u8, value)),
        Call::Read(register) if register <= 3 => Some(entry(1, register as u8, 0)),
        Call::Tick(sdi, ss) => Some(entry(2, argument_of(sdi, false, ss), 0)),
        Call::Pin(sck, sdi, ss) => Some(entry(3, argument_of(sdi, sck, ss), 0)),
        Call::Clear => Some(entry(4, 0, 0)),
        _ => None,
    }
}

// The record of a line, if it is kept.
fn line_record(line: Option<Call>) -> Option<[u8; 4]>
    ensures { KeptRecord line result }
{
    line.and_then(record_of)
}

// How many lines of a session are kept.
fn lines_kept(session: &[u8]) -> usize
    ensures value { result ≡ length (kept_from (lines_of session.now)) }
    ensures upper_bound { result ≤ length session.now }
{
    let mut kept = 0;
    for line in Lines::of(session) {
        kept += line_record(line).is_some() as usize;
    }
    kept
}

// The records of a session, from a place on.
fn put_records(session: &[u8], out: &mut [u8], from: usize)
    requires { from + 4 * length (kept_from (lines_of session.now)) ≤ length out.old }
    ensures { out.new ≡ put_records out.old from session.now }
{
    let mut place = from;
    for line in Lines::of(session) {
        if let Some(record) = line_record(line) {
            place = put(out, place, &record);
        }
    }
}

// Saves a script session in a buffer: the answer is the file's length, or that it does not fit.
pub fn save(script: &[u8], out: &mut [u8]) -> Result<u16, NoRoom>
    ensures value { result ≡ saved_of script.now (length out.old) }
    ensures out_after { out.new ≡ buffer_after script.now out.old }
{
    let session = &script[..script_lines::bytes_read(script)];
    let size = 4 * lines_kept(session);
    let Ok(length) = u16::try_from(10 + size) else {
        return Err(NoRoom);
    };
    if out.len() < 10 + size {
        return Err(NoRoom);
    }
    let from = put_head(out, &[size as u16]);
    put_records(session, out, from);
    Ok(length)
}

// How many bytes of a section's body are kept: those before the first wrong record. The sections that its kept records play are raised.
fn keep_section(f: &[u8], k: u16, body: &[u8], levels: &mut [u8; 256]) -> usize
    requires { k < 256 }
    ensures value { result ≡ 4 * length (beginning (section_count f.now) (get_or levels.old k 0) k (entries_in body.now)) }
    ensures levels_after { levels.new ≡ raised_by (get_or levels.old k 0) levels.old (beginning (section_count f.now) (get_or levels.old k 0) k (entries_in body.now)) }
{
    let level = levels[k as usize];
    let records = body.len() / 4;
    for i in 0..records {
        // read from its four bytes alone, so that the reader's tests of the place are of constants
        let e = trace_reader::entry_of(&body[4 * i..4 * i + 4], 0);
        if !trace_right::take_record(f, k, levels, level, e) {
            return 4 * i;
        }
    }
    4 * records
}

// What is known of a new file before it is written: the sections that are cut, and how many bytes it has.
#[derive(Clone, Copy)]
struct Tally {
    cut: u16,
    end: usize,
}

// What each section keeps, in file order.
fn keep_sections(f: &[u8], sizes: &mut [u16; 64]) -> Tally
    requires { (salvageable f.now ≡ true) × (length sizes.old ≡ 64) }
    ensures cut_value { (result.cut ≡ sections_cut f.now (salvaged_file f.now)) × (result.end ≡ length (salvaged_file f.now)) }
    ensures kept_sizes { KeptSizes f.now (section_count f.now) sizes.new }
{
    let n = trace_numbers::count(f);
    let mut levels = [1u8; 256];
    let mut cut: u16 = 0;
    let mut end = 2 + 8 * n as usize;
    for k in 0..n {
        let body = trace_reader::body_of(f, k);
        let size = keep_section(f, k, body, &mut levels);
        cut += (size < trace_numbers::size(f, k) as usize) as u16;
        end += size;
        sizes[k as usize] = size as u16;
    }
    Tally { cut, end }
}

// The beginnings of all sections, of these sizes, one behind the other from a place on.
fn put_parts(f: &[u8], sizes: &[u16], out: &mut [u8], from: usize)
    requires { (length sizes.now ≤ 64) × Within f.now (length sizes.now) sizes.now from out.old }
    ensures { out.new ≡ put_parts f.now (length sizes.now) sizes.now from out.old }
{
    let mut place = from;
    for (k, size) in sizes.iter().enumerate() {
        let body = trace_reader::body_of(f, k as u16);
        place = put(out, place, &body[..*size as usize]);
    }
}

// Salvages a trace file in a buffer: the answer is why it is not, or the sections cut, the bytes lost and the new file's length.
pub fn salvage(f: &[u8], out: &mut [u8]) -> Result<Salvaged, SalvageFault>
    ensures value { result ≡ salvaged_of f.now (length out.old) }
    ensures out_after { out.new ≡ salvage-rules.buffer_after f.now out.old }
{
    let Some(last) = trace_right::stated_end(f) else {
        return Err(SalvageFault::BadContents);
    };
    if 65535 < last {
        return Err(SalvageFault::BadContents);
    }
    // there is no heap, so that the array has room for the most sections, and the part that is used is lent on
    let mut sizes = [0u16; 64];
    let Tally { cut, end } = keep_sections(f, &mut sizes);
    if out.len() < end {
        return Err(SalvageFault::NoRoom);
    }
    let sizes = &sizes[..trace_numbers::count(f) as usize];
    let from = put_head(out, sizes);
    put_parts(f, sizes, out, from);
    Ok(Salvaged {
        cut,
        lost: (last as usize - end) as u16,
        length: end as u16,
    })
}
