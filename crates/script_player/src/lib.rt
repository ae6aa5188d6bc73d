// Playing a script on a module in memory: each line is read, asked of the module and answered, piece by piece into a lent
// buffer.
#![tactic(auto)]

ghost use Rattle.std.specs.Prelude.{◌+◌, ◌%◌, ◌≤◌, ◌<◌, ◌≡◌, [], ◌∷◌, length};
ghost use Rattle.script_rules.specs.Script.{space, four_hex_of, sdo_letter, refused_text, ok_text, ss_text, pin_text, edge_text, done_text, answer_text, line_text, line_after, answer_line, read_from};
ghost use Rattle.script_rules.specs.Session.{started, played, answers, piece_after, piece_text};
ghost use Rattle.script_rules.specs.Texts.{Written};
ghost use Rattle.module_memory.specs.Memory.{module_in};
ghost use Rattle.script_player.specs.SessionIn.{session_in};

use module_types::{Answer, Call, Output, Refusal};
use script_digits::Text;
use script_rules::{Bookmark, Piece};

// A script starts with a module at power-up.
pub fn start(w: &mut [u16; 96]) -> Bookmark
    ensures { session_in w.new result ≡ started }
{
    module_memory_stores::power_up(w);
    Bookmark { lines: 0, at: 0 }
}

// How much room each text needs is its own bound, so it is a clause of each put_ and no invariant of Text.

// A value in four hexadecimal digits.
fn put_value(text: &mut Text<4096>, v: u16)
    requires { text.old.end + 4 ≤ 4096 }
    ensures same_buffer { text.new.bytes.ghost_name ≡ text.old.bytes.ghost_name }
    ensures written { Written (four_hex_of v) text.old.bytes.now text.old.end text.new.bytes.now text.new.end }
{
    text.put_hex(4, v as u32);
}

// The letter of the SDO pin, by sdo_letter of the script rules.
fn sdo_letter(pin: Output) -> u8
    ensures { result ≡ sdo_letter pin }
{
    match pin {
        Output::Low => b'0',
        Output::High => b'1',
        Output::Undriven => b'Z',
    }
}

// A refusal: E and its number.
fn put_refused(text: &mut Text<4096>, r: Refusal)
    requires { text.old.end + 4 ≤ 4096 }
    ensures same_buffer { text.new.bytes.ghost_name ≡ text.old.bytes.ghost_name }
    ensures written { Written (refused_text r) text.old.bytes.now text.old.end text.new.bytes.now text.new.end }
{
    text.put(b'E');
    text.put(b' ');
    let number = module_looks::refusal_number(r);
    text.put_decimal(number as u32);
}

fn put_ok(text: &mut Text<4096>)
    requires { text.old.end + 2 ≤ 4096 }
    ensures same_buffer { text.new.bytes.ghost_name ≡ text.old.bytes.ghost_name }
    ensures written { Written ok_text text.old.bytes.now text.old.end text.new.bytes.now text.new.end }
{
    text.put(b'O');
    text.put(b'K');
}

// A level as a last field.
fn put_last(text: &mut Text<4096>, level: u8)
    requires { text.old.end + 2 ≤ 4096 }
    ensures same_buffer { text.new.bytes.ghost_name ≡ text.old.bytes.ghost_name }
    ensures written { Written (space ∷ level ∷ []) text.old.bytes.now text.old.end text.new.bytes.now text.new.end }
{
    text.put(b' ');
    text.put(level);
}

// The level of SS, if it is driven: a last field.
fn put_ss(text: &mut Text<4096>, pin: Output)
    requires { text.old.end + 2 ≤ 4096 }
    ensures same_buffer { text.new.bytes.ghost_name ≡ text.old.bytes.ghost_name }
    ensures written { Written (ss_text pin) text.old.bytes.now text.old.end text.new.bytes.now text.new.end }
{
    match pin {
        Output::Low => put_last(text, b'0'),
        Output::High => put_last(text, b'1'),
        Output::Undriven => {}
    }
}

// SDO, the interrupt flag and a driven SS.
fn put_pins(text: &mut Text<4096>, w: &[u16; 96])
    requires { text.old.end + 5 ≤ 4096 }
    ensures same_buffer { text.new.bytes.ghost_name ≡ text.old.bytes.ghost_name }
    ensures written { Written (pin_text (module_in w.now)) text.old.bytes.now text.old.end text.new.bytes.now text.new.end }
{
    let sdo = sdo_letter(module_calls::sdo(w));
    let flag = script_digits::level_letter(module_memory_looks::interrupt_in(w));
    text.put(sdo);
    text.put(b' ');
    text.put(flag);
    put_ss(text, module_calls::ss(w));
}

// SCK, SDO, the interrupt flag and a driven SS.
fn put_edge(text: &mut Text<4096>, w: &[u16; 96])
    requires { text.old.end + 7 ≤ 4096 }
    ensures same_buffer { text.new.bytes.ghost_name ≡ text.old.bytes.ghost_name }
    ensures written { Written (edge_text (module_in w.now)) text.old.bytes.now text.old.end text.new.bytes.now text.new.end }
{
    let pins = module_memory_looks::pins_in(w);
    text.put(script_digits::level_letter(pins.sck));
    text.put(b' ');
    put_pins(text, w);
}

// What a call that was done tells.
fn put_done(text: &mut Text<4096>, c: Call, w: &[u16; 96])
    requires { text.old.end + 5 ≤ 4096 }
    ensures same_buffer { text.new.bytes.ghost_name ≡ text.old.bytes.ghost_name }
    ensures written { Written (done_text c (module_in w.now)) text.old.bytes.now text.old.end text.new.bytes.now text.new.end }
{
    match c {
        Call::Pin(_, _, _) => put_pins(text, w),
        Call::Read(_)
        | Call::Write(_, _)
        | Call::Tick(_, _)
        | Call::ClockStep(_, _, _)
        | Call::Clear => put_ok(text),
    }
}

// What an answer to a call tells.
fn put_answer(text: &mut Text<4096>, c: Call, a: Answer, w: &[u16; 96])
    requires { text.old.end + 7 ≤ 4096 }
    ensures same_buffer { text.new.bytes.ghost_name ≡ text.old.bytes.ghost_name }
    ensures written { Written (answer_text c a (module_in w.now)) text.old.bytes.now text.old.end text.new.bytes.now text.new.end }
{
    match a {
        Answer::Refused(r) => put_refused(text, r),
        Answer::Done => put_done(text, c, w),
        Answer::Value(v) => put_value(text, v),
        Answer::NoEdge => text.put(b'N'),
        Answer::Edge => put_edge(text, w),
    }
}

// A line is asked of the module, and what it tells. A line that cannot be read gives 9.
fn put_line(text: &mut Text<4096>, w: &mut [u16; 96], line: Option<Call>)
    requires { text.old.end + 7 ≤ 4096 }
    ensures w_after { module_in w.new ≡ line_after (module_in w.old) line }
    ensures same_buffer { text.new.bytes.ghost_name ≡ text.old.bytes.ghost_name }
    ensures written { Written (line_text (module_in w.old) line) text.old.bytes.now text.old.end text.new.bytes.now text.new.end }
{
    match line {
        None => put_refused(text, Refusal::UnreadableLine),
        Some(c) => {
            let answer = module_calls::perform(w, c);
            put_answer(text, c, answer, w);
        }
    }
}

// The whole answer to a line: its number, a space, what it tells, and LF.
fn answer_line(text: &mut Text<4096>, number: u32, w: &mut [u16; 96], line: Option<Call>)
    requires { (text.old.end + 16 ≤ 4096) × (number ≤ 65536) }
    ensures w_after { module_in w.new ≡ line_after (module_in w.old) line }
    ensures same_buffer { text.new.bytes.ghost_name ≡ text.old.bytes.ghost_name }
    ensures written { Written (answer_line number (module_in w.old) line) text.old.bytes.now text.old.end text.new.bytes.now text.new.end }
{
    text.put_decimal(number);
    text.put(b' ');
    put_line(text, w, line);
    text.put(b'\n');
}

// The next line of a script is played, if one is left. The script is cut at its limit already.
fn play_line(script: &[u8], w: &mut [u16; 96], from: Bookmark, text: &mut Text<4096>) -> Bookmark
    requires { (read_from script.now ≡ script.now) × (text.old.end + 16 ≤ 4096) }
    ensures to_after { session_in w.new result ≡ played 1 script.now (session_in w.old from) }
    ensures same_buffer { text.new.bytes.ghost_name ≡ text.old.bytes.ghost_name }
    ensures written { Written (answers 1 script.now (session_in w.old from)) text.old.bytes.now text.old.end text.new.bytes.now text.new.end }
{
    let Bookmark { lines, at } = from;
    if script.len() <= at || 65535 < lines {
        return from;
    }
    let next = script_lines::next_line(script, at);
    answer_line(text, lines + 1, w, next.line);
    Bookmark {
        lines: lines + 1,
        at: next.end + 1,
    }
}

// Plays the next 256 lines of a script, or those that are left if they are fewer, and puts their answers at the start of
// the buffer. A script ends after its first 65,535 bytes. How many bytes were written comes back, since the buffer is the caller's: it takes the
// slice of them.
pub fn piece(script: &[u8], w: &mut [u16; 96], from: Bookmark, out: &mut [u8; 4096]) -> Piece
    ensures to_after { session_in w.new result.to ≡ piece_after script.now (session_in w.old from) }
    ensures written { Written (piece_text script.now (session_in w.old from)) out.old 0 out.new result.written }
    ensures written_bound { (result.written ≤ 4096) × (length out.new ≡ length out.old) }
{
    let end = script_lines::bytes_read(script);
    let read = &script[..end];
    let mut to = from;
    let mut text = Text { bytes: out, end: 0 };
    for _ in 0..256u32 {
        to = play_line(read, w, to, &mut text);
    }
    Piece {
        to,
        written: text.end,
    }
}
