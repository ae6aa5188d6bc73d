// What the programs share: standard input into a fixed buffer, and bytes and numbers to an output that keeps its first error.
#![tactic(auto)]

ghost use Rattle.std.specs.Prelude.{◌≡◌, ◌<◌, true, [], ◌∷◌, IfOk, IsNone, IsSome, length, take};
ghost use Rattle.std.specs.Fmt.{decimal, radix_digits};
ghost use Rattle.std.specs.Io.{ReadsAtMost};
ghost use Rattle.std.specs.Io.KnownBytes.{Appends, Consumes, IsAtEnd};
ghost use Rattle.run_text.specs.Hex.{four_hex};
ghost use Rattle.run_text.specs.Line.{refusal_line};

use std::io;
use std::io::{Read, Write};

// Reads until `buf` is full or the input ends, and returns how many bytes it put at the start of `buf`. What is left of the
// input stays unread.
pub fn read_full<R: Read>(from: &mut R, buf: &mut [u8]) -> io::Result<usize>
    ensures bound { ReadsAtMost result buf.new }
    ensures bytes { IfOk result (λ n. Consumes (R.remaining from.old) (R.remaining from.new) (take n buf.new)) }
    ensures end { IfOk result (λ n. n < length buf.new → IsAtEnd (R.remaining from.new)) }
{
    let mut done = 0;
    // no index is counted here: a read may give fewer bytes than are asked for
    while done < buf.len() {
        let n = from.read(&mut buf[done..])?;
        if n == 0 {
            break;
        }
        done += n;
    }
    Ok(done)
}

// A hexadecimal digit, in upper case.
#[tactic(auto, using(std::proofs::lemmas::Fmt::hex_one_digit))]
fn hex_digit(n: u16) -> u8
    requires { n < 16 }
    ensures { radix_digits 16 true n ≡ result ∷ [] }
{
    let low = n as u8;
    if low < 10 {
        b'0' + low
    } else {
        b'A' + (low - 10)
    }
}

// A writer and the first error that it gave. Nothing is written after an error.
#[derive(Drop)]
pub struct Output<W> {
    pub to: W,
    pub failed: Option<io::Error>,
}

impl<W: Write> Output<W> {
    pub fn new(to: W) -> Output<W>
        ensures writer { result.to ≡ to }
        ensures failed { IsNone result.failed }
    {
        Output { to, failed: None }
    }

    pub fn print(&mut self, text: &[u8])
        ensures text { IsNone self.new.failed → Appends (W.contents self.old.to) (W.contents self.new.to) text.now }
        ensures kept { IsNone self.new.failed → IsNone self.old.failed }
        ensures stopped { IsSome self.old.failed → (self.new.to ≡ self.old.to) × (self.new.failed ≡ self.old.failed) }
    {
        if self.failed.is_none() {
            self.failed = self.to.write_all(text).err();
        }
    }

    // A number in decimal, with no line end.
    pub fn print_decimal(&mut self, n: u64)
        ensures text { IsNone self.new.failed → Appends (W.contents self.old.to) (W.contents self.new.to) (decimal n) }
        ensures kept { IsNone self.new.failed → IsNone self.old.failed }
        ensures stopped { IsSome self.old.failed → (self.new.to ≡ self.old.to) × (self.new.failed ≡ self.old.failed) }
    {
        if self.failed.is_none() {
            self.failed = write!(self.to, "{n}").err();
        }
    }

    // A number in four hexadecimal digits, in upper case, by one write: `write!` makes one for each hole, and a program's output keeps none
    // back. The clause says each digit as `{:X}` writes it.
    pub fn print_hex(&mut self, n: u16)
        ensures text { IsNone self.new.failed → Appends (W.contents self.old.to) (W.contents self.new.to) (four_hex n) }
        ensures kept { IsNone self.new.failed → IsNone self.old.failed }
        ensures stopped { IsSome self.old.failed → (self.new.to ≡ self.old.to) × (self.new.failed ≡ self.old.failed) }
    {
        let digits = [
            hex_digit(n / 4096),
            hex_digit(n / 256 % 16),
            hex_digit(n / 16 % 16),
            hex_digit(n % 16),
        ];
        self.print(&digits);
    }

    // The line that tells a refusal by its number.
    pub fn print_refusal(&mut self, number: u8)
        ensures text { IsNone self.new.failed → Appends (W.contents self.old.to) (W.contents self.new.to) (refusal_line number) }
        ensures kept { IsNone self.new.failed → IsNone self.old.failed }
        ensures stopped { IsSome self.old.failed → (self.new.to ≡ self.old.to) × (self.new.failed ≡ self.old.failed) }
    {
        if self.failed.is_none() {
            self.failed = writeln!(self.to, "E {number}").err();
        }
    }

    // The writer, or the error that was kept.
    pub fn finish(self) -> io::Result<W>
    where
        W: Drop,
        ensures ok { IfOk result (λ w. (w ≡ self.to) × IsNone self.failed) }
    {
        let Output { to, failed } = self;
        match failed {
            Some(e) => Err(e),
            None => Ok(to),
        }
    }
}

#[cfg(test)]
mod tests {
    use super::*;
    use std::test::Fail;

    // Takes so many bytes, one at a time, and then fails.
    #[derive(Drop)]
    struct Narrow {
        room: u8,
        taken: Vec<u8>,
    }

    impl Write for Narrow {
        fn write(&mut self, buf: &[u8]) -> io::Result<usize> {
            if self.room == 0 {
                return Err(io::Error::from(io::ErrorKind::StorageFull));
            }
            if buf.is_empty() {
                return Ok(0);
            }
            self.taken.push(buf[0])?;
            self.room -= 1;
            Ok(1)
        }

        fn flush(&mut self) -> io::Result<()> {
            Ok(())
        }
    }

    // Gives one byte at a time, and fails at the end in place of ending.
    #[derive(Drop)]
    struct Broken<'a> {
        left: &'a [u8],
    }

    impl Read for Broken<'_> {
        fn read(&mut self, buf: &mut [u8]) -> io::Result<usize> {
            if self.left.is_empty() {
                return Err(io::Error::from(io::ErrorKind::BrokenPipe));
            }
            if buf.is_empty() {
                return Ok(0);
            }
            buf[0] = self.left[0];
            self.left = &self.left[1..];
            Ok(1)
        }
    }

    #[test]
    fn reads_up_to_the_buffer(rt: HostRuntime) -> Result<(), Fail> {
        let mut buf = [7u8; 4];
        let mut short: &[u8] = b"abc";
        let n = read_full(&mut short, &mut buf)?;
        assert_eq!(rt; n, 3);
        assert_eq!(rt; buf, [97u8, 98, 99, 7]);
        let mut long: &[u8] = b"abcdef";
        let full = read_full(&mut long, &mut buf)?;
        assert_eq!(rt; full, 4);
        assert_eq!(rt; buf, [97u8, 98, 99, 100]);
        assert_eq!(rt; long.len(), 2);
        Ok(())
    }

    #[test]
    fn reads_in_pieces_and_keeps_the_error(rt: HostRuntime) -> Result<(), Fail> {
        let mut buf = [0u8; 3];
        let n = read_full(&mut Broken { left: b"xyz" }, &mut buf)?;
        assert_eq!(rt; n, 3);
        assert_eq!(rt; buf, [120u8, 121, 122]);
        let short = read_full(&mut Broken { left: b"xy" }, &mut buf);
        assert!(rt; short.is_err());
        Ok(())
    }

    #[test]
    fn prints_text_and_numbers(rt: HostRuntime) -> Result<(), Fail> {
        let mut out = Output::new(Vec::new(rt.alloc()));
        out.print(b"at ");
        out.print_decimal(0);
        out.print(b" ");
        out.print_decimal(18446744073709551615);
        let text = out.finish()?;
        assert_eq!(rt; text.as_slice(), b"at 0 18446744073709551615".as_slice());
        Ok(())
    }

    #[test]
    fn prints_four_hexadecimal_digits(rt: HostRuntime) -> Result<(), Fail> {
        let mut out = Output::new(Vec::new(rt.alloc()));
        out.print_hex(0);
        out.print_hex(0x0A5F);
        out.print_hex(0xFFFF);
        let text = out.finish()?;
        assert_eq!(rt; text.as_slice(), b"00000A5FFFFF".as_slice());
        Ok(())
    }

    #[test]
    fn prints_a_refusal_as_a_line(rt: HostRuntime) -> Result<(), Fail> {
        let mut out = Output::new(Vec::new(rt.alloc()));
        out.print_refusal(0);
        out.print_refusal(255);
        let text = out.finish()?;
        assert_eq!(rt; text.as_slice(), b"E 0\nE 255\n".as_slice());
        let mut narrow = Output::new(Narrow {
            room: 3,
            taken: Vec::new(rt.alloc()),
        });
        narrow.print_refusal(12);
        narrow.print_refusal(7);
        assert!(rt; narrow.failed.is_some());
        assert_eq!(rt; narrow.to.taken.as_slice(), b"E 1".as_slice());
        Ok(())
    }

    #[test]
    fn nothing_follows_an_error(rt: HostRuntime) -> Result<(), Fail> {
        let mut out = Output::new(Narrow {
            room: 4,
            taken: Vec::new(rt.alloc()),
        });
        out.print(b"abc");
        assert!(rt; out.failed.is_none());
        out.print_decimal(12);
        assert!(rt; out.failed.is_some());
        out.to.room = 9;
        out.print(b"d");
        out.print_decimal(3);
        assert_eq!(rt; out.to.taken.as_slice(), b"abc1".as_slice());
        let answer = out.finish();
        assert!(rt; answer.is_err());
        Ok(())
    }
}
