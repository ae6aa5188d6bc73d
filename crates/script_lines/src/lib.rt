// Reading a script: where it ends, where a line ends, and the call that a line asks for.
#![tactic(auto)]

ghost use Rattle.std.specs.Prelude.{◌+◌, ◌≤◌, true, ◌≡◌, ◌==◌, [], ◌∷◌, length, drop, position};
ghost use Rattle.script_rules.specs.Script.{read_from, digit, hex_digit, level, fits_place, hex_value, reading_of};
ghost use Rattle.script_rules.specs.Session.{first_line};
ghost use Rattle.std.specs.Iterator.{YieldsFirst, item_count};
ghost use Rattle.script_lines.specs.Lines.{lines_left};

use module_types::Call;

// How many bytes of a script are read: no more than the first 65,535.
pub fn bytes_read(script: &[u8]) -> usize
    ensures { result ≡ length (read_from script.now) }
{
    script.len().min(65535)
}

// The place of the first LF.
fn first_lf(bytes: &[u8]) -> Option<usize>
    ensures { result ≡ position (λ b. b == 10) bytes.now }
{
    bytes.iter().position(|b| *b == b'\n')
}

// How many bytes stand before the first LF, or in all if there is none.
fn line_length(bytes: &[u8]) -> usize
    ensures { result ≡ length (first_line bytes.now) }
{
    first_lf(bytes).unwrap_or(bytes.len())
}

// A decimal digit.
fn is_digit(b: u8) -> bool
    ensures { result ≡ fits_place digit b }
{
    b.is_ascii_digit()
}

// A hexadecimal digit, in upper case.
fn is_hex(b: u8) -> bool
    ensures { result ≡ fits_place hex_digit b }
{
    b.is_ascii_digit() | ((b'A' <= b) & (b <= b'F'))
}

// A level.
fn is_level(b: u8) -> bool
    ensures { result ≡ fits_place level b }
{
    matches!(b, b'0' | b'1')
}

// What a hexadecimal digit stands for: by hand, as hex_value of the script rules has it. `char::to_digit` would give an Option, and take lower case too.
fn hex_value(b: u8) -> u16
    requires { fits_place hex_digit b ≡ true }
    ensures value { result ≡ hex_value b }
    ensures upper_bound { result ≤ 15 }
{
    if b <= b'9' {
        (b - b'0') as u16
    } else {
        (b - (b'A' - 10)) as u16
    }
}

// The forms of a line, by its length. Their tests are joined by `&`, so that the whole test is one value, which is that of the definition.

// `W n vvvv`
fn eight_bytes(k: u8, s: u8, n: u8, t: u8, a: u8, b: u8, c: u8, d: u8) -> Option<Call>
    ensures { result ≡ reading_of (k ∷ s ∷ n ∷ t ∷ a ∷ b ∷ c ∷ d ∷ []) }
{
    let digits = is_hex(a) & (is_hex(b) & (is_hex(c) & is_hex(d)));
    if (k == b'W') & ((s == b' ') & (is_digit(n) & ((t == b' ') & digits))) {
        let v = hex_value(a) * 4096 + hex_value(b) * 256 + hex_value(c) * 16 + hex_value(d);
        return Some(Call::Write((n - b'0') as u32, v));
    }
    None
}

// `R n` and `T sdi`
fn three_bytes(k: u8, s: u8, n: u8) -> Option<Call>
    ensures { result ≡ reading_of (k ∷ s ∷ n ∷ []) }
{
    if (k == b'R') & ((s == b' ') & is_digit(n)) {
        return Some(Call::Read((n - b'0') as u32));
    }
    if (k == b'T') & ((s == b' ') & is_level(n)) {
        return Some(Call::Tick(n == b'1', false));
    }
    None
}

// `T sdi ss`
fn five_bytes(k: u8, s: u8, a: u8, t: u8, b: u8) -> Option<Call>
    ensures { result ≡ reading_of (k ∷ s ∷ a ∷ t ∷ b ∷ []) }
{
    if (k == b'T') & ((s == b' ') & (is_level(a) & ((t == b' ') & is_level(b)))) {
        return Some(Call::Tick(a == b'1', b == b'1'));
    }
    None
}

// `P sck sdi ss`
fn seven_bytes(k: u8, s: u8, a: u8, t: u8, b: u8, u: u8, c: u8) -> Option<Call>
    ensures { result ≡ reading_of (k ∷ s ∷ a ∷ t ∷ b ∷ u ∷ c ∷ []) }
{
    let levels = is_level(a) & ((t == b' ') & (is_level(b) & ((u == b' ') & is_level(c))));
    if (k == b'P') & ((s == b' ') & levels) {
        return Some(Call::Pin(a == b'1', b == b'1', c == b'1'));
    }
    None
}

// `C`
fn one_byte(k: u8) -> Option<Call>
    ensures { result ≡ reading_of (k ∷ []) }
{
    if k == b'C' {
        return Some(Call::Clear);
    }
    None
}

// The call that a line asks for, or none if it cannot be read. The forms differ in their length, so the length picks what to look for.
// Tried: the bytes of each form in its pattern too. The last arm then has nineteen goals, in which what is known of the bytes has no name to cite.
fn reading(line: &[u8]) -> Option<Call>
    ensures { result ≡ reading_of line.now }
{
    match *line {
        [k, s, n, t, a, b, c, d] => eight_bytes(k, s, n, t, a, b, c, d),
        [k, s, n] => three_bytes(k, s, n),
        [k, s, a, t, b] => five_bytes(k, s, a, t, b),
        [k, s, a, t, b, u, c] => seven_bytes(k, s, a, t, b, u, c),
        [k] => one_byte(k),
        _ => None,
    }
}

// A line of a script: the call that it asks for, or none if it cannot be read, and the place behind its last byte.
#[derive(Clone, Copy)]
pub struct Next {
    pub line: Option<Call>,
    pub end: usize,
}

// The line from a place on.
pub fn next_line(script: &[u8], at: usize) -> Next
    ensures line_value { result.line ≡ reading_of (first_line (drop at script.now)) }
    ensures end_value { result.end ≡ at + length (first_line (drop at script.now)) }
{
    if script.len() <= at {
        return Next {
            line: None,
            end: at,
        };
    }
    let rest = &script[at..];
    let length = line_length(rest);
    Next {
        line: reading(&rest[..length]),
        end: at + length,
    }
}

// The lines of a script from a place on, one after the other: the call that each asks for, or none.
#[derive(Clone, Copy)]
pub struct Lines<'a> {
    pub script: &'a [u8],
    pub at: usize,
}

impl Iterator for Lines<'_> {
    type Item = Option<Call>;

    ghost next_gives = { YieldsFirst (λ s. lines_left s.script.now s.at) };

    ghost remaining = { item_count (λ s. lines_left s.script.now s.at) };

    fn next(&mut self) -> Option<Option<Call>> {
        if self.script.len() <= self.at {
            return None;
        }
        let next = next_line(self.script, self.at);
        self.at = next.end + 1;
        Some(next.line)
    }
}

impl<'a> Lines<'a> {
    // Those of a whole script.
    pub fn of(script: &'a [u8]) -> Lines<'a>
        ensures { (result.script.now ≡ script.now) × (result.at ≡ 0) }
    {
        Lines { script, at: 0 }
    }
}
