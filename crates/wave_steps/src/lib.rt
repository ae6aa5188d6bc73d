// A waveform of a module in the form of a VCD file: what is shown of the module after each call, and the bytes of what changed, step
// by step into a lent buffer.
#![tactic(auto)]

ghost use Rattle.std.specs.Prelude.{◌+◌, ◌≤◌, ◌<◌, ◌≡◌, [], ◌∷◌, length};
ghost use Rattle.script_rules.specs.Script.{level_digit, line_after};
ghost use Rattle.script_rules.specs.Texts.{Written};
ghost use Rattle.module_rules.specs.Calls.{powered_up};
ghost use Rattle.module_memory.specs.Memory.{module_in};
ghost use Rattle.wave_steps.specs.Wave.{level_if, driven_or, leaving_of, arriving_of, shown_of, brought, sdi_after, line_shown, value_of, level_change, number_change, level_changes, number_changes, changes, step_text, head_text, unshown, unknown};

use module_types::{Answer, Call, Output, Shift};
use script_digits::{Text, level_letter};

// What a waveform shows of a module. A level is its byte in the file: 0, 1, z where nobody drives it, x before it is known. A word that
// is not there is 65,536, as leaving_of and arriving_of of specs/Wave.antt say, and unshown there has 65,537, which no module shows.
#[derive(Clone, Copy)]
pub struct Shown {
    pub sck: u8,
    pub sdo: u8,
    pub sdi: u8,
    pub ss: u8,
    pub interrupt: u8,
    pub spien: u8,
    pub waiting: u8,
    pub unread: u8,
    pub leaving: u32,
    pub arriving: u32,
}

// What a step returns: what is shown after it, and how many bytes were written, of which the caller, whose buffer it is, takes the slice.
#[derive(Clone, Copy)]
pub struct Stepped {
    pub shown: Shown,
    pub written: usize,
}

// ---- what is shown

// The byte of a level that an enabled module makes or sees.
fn level_if(enabled: bool, high: bool) -> u8
    ensures { result ≡ level_if enabled high }
{
    if enabled { level_letter(high) } else { b'z' }
}

// The byte of a pin that the module may drive. The script's sdo_letter, which always writes Z, stands for a definition of its own.
fn driven_or(other: u8, pin: Output) -> u8
    ensures { result ≡ driven_or other pin }
{
    match pin {
        Output::Low => b'0',
        Output::High => b'1',
        Output::Undriven => other,
    }
}

// The word on its way out.
fn leaving(shift: Shift) -> u32
    ensures { result ≡ leaving_of shift }
{
    match shift {
        Shift::Free => 65536,
        Shift::Loaded(word) => word as u32,
        Shift::Begun(p) => p.word as u32,
    }
}

// The word on its way in.
fn arriving(shift: Shift) -> u32
    ensures { result ≡ arriving_of shift }
{
    match shift {
        Shift::Free | Shift::Loaded(_) => 65536,
        Shift::Begun(p) => p.received as u32,
    }
}

// All that is shown of a module, with the byte of SDI.
fn look(w: &[u16; 96], sdi: u8) -> Shown
    ensures { result ≡ shown_of (module_in w.now) sdi }
{
    let s = module_memory_looks::settings_in(w);
    let pins = module_memory_looks::pins_in(w);
    let shift = module_memory_looks::shift_in(w);
    let seen = level_if(s.spien, pins.ss);
    Shown {
        sck: level_if(s.spien, pins.sck),
        sdo: driven_or(b'z', module_calls::sdo(w)),
        sdi,
        ss: driven_or(seen, module_calls::ss(w)),
        interrupt: level_letter(module_memory_looks::interrupt_in(w)),
        spien: level_letter(s.spien),
        waiting: module_memory_looks::waiting_in(w),
        unread: module_memory_looks::unread_in(w),
        leaving: leaving(shift),
        arriving: arriving(shift),
    }
}

// The byte of SDI after a call that is not refused, and after one by its answer.
fn brought_by(sdi: u8, c: Call) -> u8
    ensures { result ≡ brought sdi c }
{
    match c {
        Call::Tick(high, _) | Call::Pin(_, high, _) | Call::ClockStep(_, high, _) => level_letter(
            high,
        ),
        Call::Read(_) | Call::Write(_, _) | Call::Clear => sdi,
    }
}

fn sdi_after(sdi: u8, c: Call, a: Answer) -> u8
    ensures { result ≡ sdi_after sdi c a }
{
    match a {
        Answer::Refused(_) => sdi,
        Answer::Done | Answer::Value(_) | Answer::NoEdge | Answer::Edge => brought_by(sdi, c),
    }
}

// A line is played, and what is shown after it.
fn play(w: &mut [u16; 96], sdi: u8, line: Option<Call>) -> Shown
    ensures w_after { module_in w.new ≡ line_after (module_in w.old) line }
    ensures value { result ≡ line_shown sdi (module_in w.old) line }
{
    match line {
        None => look(w, sdi),
        Some(c) => {
            let answer = module_calls::perform(w, c);
            let after = sdi_after(sdi, c, answer);
            look(w, after)
        }
    }
}

// ---- the bytes of a step

// A number, or z where there is none.
fn put_value(text: &mut Text<128>, places: u8, n: u32)
    requires { (text.old.end + 16 ≤ 128) × (places ≤ 16) }
    ensures same_buffer { text.new.bytes.ghost_name ≡ text.old.bytes.ghost_name }
    ensures written { Written (value_of places n) text.old.bytes.now text.old.end text.new.bytes.now text.new.end }
    ensures upper_bound { text.new.end ≤ text.old.end + 16 }
{
    if 65535 < n {
        text.put(b'z')
    } else {
        text.put_binary(places, n)
    }
}

// A level, if it is another than before. Old and new stand side by side, as level_change of specs/ has them.
fn put_level(text: &mut Text<128>, name: u8, old: u8, new: u8)
    requires { text.old.end + 3 ≤ 128 }
    ensures same_buffer { text.new.bytes.ghost_name ≡ text.old.bytes.ghost_name }
    ensures written { Written (level_change name old new) text.old.bytes.now text.old.end text.new.bytes.now text.new.end }
    ensures upper_bound { text.new.end ≤ text.old.end + 3 }
{
    if old == new {
        return;
    }
    text.put(new);
    text.put(name);
    text.put(b'\n');
}

// A number, if it is another than before.
fn put_number(text: &mut Text<128>, name: u8, places: u8, old: u32, new: u32)
    requires { (text.old.end + 20 ≤ 128) × (places ≤ 16) }
    ensures same_buffer { text.new.bytes.ghost_name ≡ text.old.bytes.ghost_name }
    ensures written { Written (number_change name places old new) text.old.bytes.now text.old.end text.new.bytes.now text.new.end }
    ensures upper_bound { text.new.end ≤ text.old.end + 20 }
{
    if old == new {
        return;
    }
    text.put(b'b');
    put_value(text, places, new);
    text.put(b' ');
    text.put(name);
    text.put(b'\n');
}

// The levels that are others than before.
fn put_levels(text: &mut Text<128>, old: Shown, new: Shown)
    requires { text.old.end + 18 ≤ 128 }
    ensures same_buffer { text.new.bytes.ghost_name ≡ text.old.bytes.ghost_name }
    ensures written { Written (level_changes old new) text.old.bytes.now text.old.end text.new.bytes.now text.new.end }
    ensures upper_bound { text.new.end ≤ text.old.end + 18 }
{
    put_level(text, b'c', old.sck, new.sck);
    put_level(text, b'o', old.sdo, new.sdo);
    put_level(text, b'i', old.sdi, new.sdi);
    put_level(text, b's', old.ss, new.ss);
    put_level(text, b'f', old.interrupt, new.interrupt);
    put_level(text, b'e', old.spien, new.spien);
}

// The numbers that are others than before.
fn put_numbers(text: &mut Text<128>, old: Shown, new: Shown)
    requires { text.old.end + 80 ≤ 128 }
    ensures same_buffer { text.new.bytes.ghost_name ≡ text.old.bytes.ghost_name }
    ensures written { Written (number_changes old new) text.old.bytes.now text.old.end text.new.bytes.now text.new.end }
    ensures upper_bound { text.new.end ≤ text.old.end + 80 }
{
    put_number(text, b'w', 5, old.waiting as u32, new.waiting as u32);
    put_number(text, b'u', 5, old.unread as u32, new.unread as u32);
    put_number(text, b'O', 16, old.leaving, new.leaving);
    put_number(text, b'I', 16, old.arriving, new.arriving);
}

// All that is another than before.
fn put_changes(text: &mut Text<128>, old: Shown, new: Shown)
    requires { text.old.end + 98 ≤ 128 }
    ensures same_buffer { text.new.bytes.ghost_name ≡ text.old.bytes.ghost_name }
    ensures written { Written (changes old new) text.old.bytes.now text.old.end text.new.bytes.now text.new.end }
    ensures upper_bound { text.new.end ≤ text.old.end + 98 }
{
    put_levels(text, old, new);
    put_numbers(text, old, new);
}

// A step: its time, and all that is another than before.
fn put_step(text: &mut Text<128>, time: u32, old: Shown, new: Shown)
    requires { text.old.end ≡ 0 }
    ensures same_buffer { text.new.bytes.ghost_name ≡ text.old.bytes.ghost_name }
    ensures written { Written (step_text time old new) text.old.bytes.now text.old.end text.new.bytes.now text.new.end }
    ensures upper_bound { text.new.end ≤ 128 }
{
    text.put(b'#');
    text.put_decimal(time);
    text.put(b'\n');
    put_changes(text, old, new);
}

// ---- the calls

// The head of the file, up to the first values.
pub fn head() -> [u8; 387]
    ensures { result ≡ head_text }
{
    *b"$version Thurafeqa $end\n$timescale 1 us $end\n$scope module spi $end\n$var wire 1 c sck $end\n$var wire 1 o sdo $end\n$var wire 1 i sdi $end\n$var wire 1 s ss $end\n$var wire 1 f interrupt $end\n$var wire 1 e spien $end\n$var wire 5 w waiting [4:0] $end\n$var wire 5 u unread [4:0] $end\n$var wire 16 O out [15:0] $end\n$var wire 16 I in [15:0] $end\n$upscope $end\n$enddefinitions $end\n#0\n$dumpvars\n"
}

// Before the first step nothing is shown yet: every value is one that no module has.
fn nothing() -> Shown
    ensures { result ≡ unshown }
{
    Shown {
        sck: 0,
        sdo: 0,
        sdi: 0,
        ss: 0,
        interrupt: 0,
        spien: 0,
        waiting: 255,
        unread: 255,
        leaving: 65537,
        arriving: 65537,
    }
}

// A waveform starts with a module at power-up, and SDI is not known. The bytes are those of all values.
pub fn start(w: &mut [u16; 96], out: &mut [u8; 128]) -> Stepped
    ensures w_after { module_in w.new ≡ powered_up }
    ensures shown_value { result.shown ≡ shown_of powered_up unknown }
    ensures written { Written (changes unshown result.shown) out.old 0 out.new result.written }
    ensures written_bound { (result.written ≤ 128) × (length out.new ≡ length out.old) }
{
    module_memory_stores::power_up(w);
    let shown = look(w, b'x');
    let mut text = Text { bytes: out, end: 0 };
    put_changes(&mut text, nothing(), shown);
    Stepped {
        shown,
        written: text.end,
    }
}

// A line is played at a time. The bytes are those of the time and of what is another than before.
pub fn step(
    w: &mut [u16; 96],
    line: Option<Call>,
    before: Shown,
    time: u32,
    out: &mut [u8; 128],
) -> Stepped
    ensures w_after { module_in w.new ≡ line_after (module_in w.old) line }
    ensures shown_value { result.shown ≡ line_shown before.sdi (module_in w.old) line }
    ensures written { Written (step_text time before result.shown) out.old 0 out.new result.written }
    ensures written_bound { (result.written ≤ 128) × (length out.new ≡ length out.old) }
{
    let shown = play(w, before.sdi, line);
    let mut text = Text { bytes: out, end: 0 };
    put_step(&mut text, time, before, shown);
    Stepped {
        shown,
        written: text.end,
    }
}
