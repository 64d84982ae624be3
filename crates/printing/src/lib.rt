// What the programs write to their output: texts, numbers, and the answer of a take-over. A writer that keeps its bytes has got
// exactly these where the call succeeds, and a beginning of them where it fails. No contract can say what standard output does
// with them.
#![tactic(auto)]

ghost use Rattle.std.specs.Prelude.{◌≡◌, ◌<◌, false, OnOk, OnErr, decimal};
ghost use Rattle.std.specs.Io.KnownBytes.{Appends};
ghost use Rattle.std.specs.Fmt.{digit_glyph, signed_decimal};
ghost use Rattle.printing.specs.Line.{AppendsPart, first_of, hex_pair, hexadecimal, eight_of, accepted_line, refused_line};

use std::io;
use std::io::Write;

// An interrupted write is tried again.
pub fn text<W: Write>(out: &mut W, s: &[u8]) -> io::Result<()>
    ensures ok { OnOk result (Appends (W.contents out.old) (W.contents out.new) s.now) }
    ensures err { OnErr result (AppendsPart (W.contents out.old) (W.contents out.new) s.now) }
{
    let mut n = 0;
    for _ in 0..u64::MAX {
        if n == s.len() {
            return Ok(());
        }
        match out.write(&s[n..]) {
            Ok(0) => return Err(io::Error::new(
                io::ErrorKind::WriteZero,
                "failed to write whole buffer",
            )),
            Ok(more) => n += more,
            Err(e) => {
                if e.kind() != io::ErrorKind::Interrupted {
                    return Err(e);
                }
            }
        }
    }
    Err(io::Error::from(io::ErrorKind::TimedOut))
}

// The first n bytes of a text; nothing where it is shorter.
pub fn first<W: Write>(out: &mut W, s: &[u8], n: usize) -> io::Result<()>
    ensures ok { OnOk result (Appends (W.contents out.old) (W.contents out.new) (first_of n s.now)) }
    ensures err { OnErr result (AppendsPart (W.contents out.old) (W.contents out.new) (first_of n s.now)) }
{
    if n <= s.len() {
        text(out, &s[..n])?;
    }
    Ok(())
}

// A number in decimal.
pub fn number<W: Write>(out: &mut W, n: u64) -> io::Result<()>
    ensures ok { OnOk result (Appends (W.contents out.old) (W.contents out.new) (decimal n)) }
    ensures err { OnErr result (AppendsPart (W.contents out.old) (W.contents out.new) (decimal n)) }
{
    let mut digits = [0u8; 20];
    let start = itoa::write_digits(n, &mut digits, 20);
    text(out, &digits[start..])
}

// The same of a number of 32 bits.
fn count<W: Write>(out: &mut W, n: u32) -> io::Result<()>
    ensures ok { OnOk result (Appends (W.contents out.old) (W.contents out.new) (decimal n)) }
    ensures err { OnErr result (AppendsPart (W.contents out.old) (W.contents out.new) (decimal n)) }
{
    number(out, u64::from(n))
}

// A number of cents in decimal: "-" if negative, then the absolute value.
pub fn cents<W: Write>(out: &mut W, z: i64) -> io::Result<()>
    ensures ok { OnOk result (Appends (W.contents out.old) (W.contents out.new) (signed_decimal z)) }
    ensures err { OnErr result (AppendsPart (W.contents out.old) (W.contents out.new) (signed_decimal z)) }
{
    if z < 0 {
        text(out, b"-")?;
    }
    number(out, z.unsigned_abs())
}

// The first eight bytes of a text in hexadecimal; nothing where it is shorter.
pub fn eight<W: Write>(out: &mut W, s: &[u8]) -> io::Result<()>
    ensures ok { OnOk result (Appends (W.contents out.old) (W.contents out.new) (eight_of s.now)) }
    ensures err { OnErr result (AppendsPart (W.contents out.old) (W.contents out.new) (eight_of s.now)) }
{
    match s.get(..8) {
        Some(bytes) => hexadecimal(out, bytes),
        None => Ok(()),
    }
}

fn hexadecimal_digit(n: u8) -> u8
    requires { n < 16 }
    ensures { result ≡ digit_glyph false n }
{
    if n < 10 { b'0' + n } else { b'a' - 10 + n }
}

// Bytes in hexadecimal, two digits each.
fn hexadecimal<W: Write>(out: &mut W, bytes: &[u8]) -> io::Result<()>
    ensures ok { OnOk result (Appends (W.contents out.old) (W.contents out.new) (hexadecimal bytes.now)) }
    ensures err { OnErr result (AppendsPart (W.contents out.old) (W.contents out.new) (hexadecimal bytes.now)) }
{
    for byte in bytes {
        text(
            out,
            &[hexadecimal_digit(*byte / 16), hexadecimal_digit(*byte % 16)],
        )?;
    }
    Ok(())
}

// The line of a journal that is accepted: its receipts, and its counter in cents.
pub fn accepted<W: Write>(out: &mut W, receipts: u32, counter: i64) -> io::Result<()>
    ensures ok { OnOk result (Appends (W.contents out.old) (W.contents out.new) (accepted_line receipts counter)) }
    ensures err { OnErr result (AppendsPart (W.contents out.old) (W.contents out.new) (accepted_line receipts counter)) }
{
    text(out, b"accepted ")?;
    count(out, receipts)?;
    text(out, b" ")?;
    cents(out, counter)?;
    text(out, b"\n")
}

// The line of a journal that is refused: the number of the question, and the index of the entry.
pub fn refused<W: Write>(out: &mut W, question: u32, index: u32) -> io::Result<()>
    ensures ok { OnOk result (Appends (W.contents out.old) (W.contents out.new) (refused_line question index)) }
    ensures err { OnErr result (AppendsPart (W.contents out.old) (W.contents out.new) (refused_line question index)) }
{
    text(out, b"refused ")?;
    count(out, question)?;
    text(out, b" ")?;
    count(out, index)?;
    text(out, b"\n")
}
