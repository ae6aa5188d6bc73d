// The digits of a number in base 2, 10 or 16, put into a buffer that a caller lends: digits that have no room change nothing. Text is a text that
// is written into a lent buffer, byte by byte and number by number.
#![tactic(auto)]

ghost use Rattle.std.specs.Prelude.{◌+◌, ◌^◌, ◌≤◌, ◌<◌, ◌≡◌, [], ◌∷◌, length};
ghost use Rattle.script_rules.specs.Texts.{Written};
ghost use Rattle.script_rules.specs.Script.{decimal_of, hex_of, level_digit};
ghost use Rattle.script_digits.specs.Digits.{digits_of, PutWhole};

// A digit's letter, in upper case: by hand, as hex_of of the script rules has it. `char::from_digit` would give an Option, and lower case.
fn letter(digit: u32) -> u8
    requires { digit < 16 }
    ensures { result ≡ hex_of digit }
{
    let low = digit as u8;
    if low < 10 {
        b'0' + low
    } else {
        b'A' + (low - 10)
    }
}

// A level's letter.
pub fn level_letter(level: bool) -> u8
    ensures { result ≡ level_digit level }
{
    if level { b'1' } else { b'0' }
}

// So many digits of a number, from the last to the first. They are made by hand, and the place stands beside the buffer, because of PutWhole: with
// no room nothing changes. A `write!` would stop in the middle.
fn put_digits(out: &mut [u8], at: usize, base: u32, places: usize, n: u32) -> usize
    requires { (0 < base) × (base ≤ 16) }
    ensures { PutWhole (digits_of base places n) out.old at out.new result }
{
    let size = out.len();
    if size < places || size - places < at {
        return at;
    }
    let mut rest = n;
    for left in (0..places).rev() {
        out[at + left] = letter(rest % base);
        rest /= base;
    }
    at + places
}

// How many digits a number has in decimal.
fn decimal_places(n: u32) -> usize
    ensures { result ≡ length (decimal_of n) }
{
    n.checked_ilog10().map_or(1, |k| k as usize + 1)
}

// A number in decimal, by its fewest digits.
pub fn put_decimal(out: &mut [u8], at: usize, n: u32) -> usize
    ensures { PutWhole (decimal_of n) out.old at out.new result }
{
    put_digits(out, at, 10, decimal_places(n), n)
}

// A number in so many binary digits. The base is a number of put_digits; here and in put_hex it is a name, and docs/PROMISES.md has both names.
pub fn put_binary(out: &mut [u8], at: usize, places: u8, n: u32) -> usize
    ensures { PutWhole (digits_of 2 places n) out.old at out.new result }
{
    put_digits(out, at, 2, places as usize, n)
}

// A number in so many hexadecimal digits.
pub fn put_hex(out: &mut [u8], at: usize, places: u8, n: u32) -> usize
    ensures { PutWhole (digits_of 16 places n) out.old at out.new result }
{
    put_digits(out, at, 16, places as usize, n)
}

// A text that is being written into a lent buffer: the buffer, and the place behind the text. What has no room is not put, as with the functions above.
// The clause same_buffer stands in each contract, since a ghost field cannot name the buffer that was lent. The limit 2^63 stands where the buffer is
// lent on as a slice, which is never longer than isize::MAX: N has no bound of its own.
#[derive(Drop)]
pub struct Text<'a, const N: usize> {
    pub bytes: &'a mut [u8; N],
    pub end: usize,
}

impl<const N: usize> Text<'_, N> {
    // One byte more.
    pub fn put(&mut self, b: u8)
        ensures same_buffer { self.new.bytes.ghost_name ≡ self.old.bytes.ghost_name }
        ensures written { self.old.end < N → Written (b ∷ []) self.old.bytes.now self.old.end self.new.bytes.now self.new.end }
        ensures full { N ≤ self.old.end → (self.new.bytes.now ≡ self.old.bytes.now) × (self.new.end ≡ self.old.end) }
    {
        if self.end < N {
            self.bytes[self.end] = b;
            self.end += 1;
        }
    }

    // A number in decimal, by its fewest digits.
    pub fn put_decimal(&mut self, n: u32)
        ensures same_buffer { self.new.bytes.ghost_name ≡ self.old.bytes.ghost_name }
        ensures written { (self.old.end + length (decimal_of n) ≤ N) × (N < 2 ^ 63) → Written (decimal_of n) self.old.bytes.now self.old.end self.new.bytes.now self.new.end }
        ensures full { N < self.old.end + length (decimal_of n) → (self.new.bytes.now ≡ self.old.bytes.now) × (self.new.end ≡ self.old.end) }
        ensures too_long { 2 ^ 63 ≤ N → (self.new.bytes.now ≡ self.old.bytes.now) × (self.new.end ≡ self.old.end) }
    {
        if N <= isize::MAX as usize {
            self.end = put_decimal(self.bytes, self.end, n);
        }
    }

    // A number in so many binary digits.
    pub fn put_binary(&mut self, places: u8, n: u32)
        ensures same_buffer { self.new.bytes.ghost_name ≡ self.old.bytes.ghost_name }
        ensures written { (self.old.end + places ≤ N) × (N < 2 ^ 63) → Written (digits_of 2 places n) self.old.bytes.now self.old.end self.new.bytes.now self.new.end }
        ensures full { N < self.old.end + places → (self.new.bytes.now ≡ self.old.bytes.now) × (self.new.end ≡ self.old.end) }
        ensures too_long { 2 ^ 63 ≤ N → (self.new.bytes.now ≡ self.old.bytes.now) × (self.new.end ≡ self.old.end) }
    {
        if N <= isize::MAX as usize {
            self.end = put_binary(self.bytes, self.end, places, n);
        }
    }

    // A number in so many hexadecimal digits.
    pub fn put_hex(&mut self, places: u8, n: u32)
        ensures same_buffer { self.new.bytes.ghost_name ≡ self.old.bytes.ghost_name }
        ensures written { (self.old.end + places ≤ N) × (N < 2 ^ 63) → Written (digits_of 16 places n) self.old.bytes.now self.old.end self.new.bytes.now self.new.end }
        ensures full { N < self.old.end + places → (self.new.bytes.now ≡ self.old.bytes.now) × (self.new.end ≡ self.old.end) }
        ensures too_long { 2 ^ 63 ≤ N → (self.new.bytes.now ≡ self.old.bytes.now) × (self.new.end ≡ self.old.end) }
    {
        if N <= isize::MAX as usize {
            self.end = put_hex(self.bytes, self.end, places, n);
        }
    }
}
