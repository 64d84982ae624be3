// The lines that the program writes: a row's name, a tab and what the library makes of the row. Writer and name stay two arguments: a value of both would
// be made anew for each row and lent for each line.
use super::text::put_hex;
use primitives::Refusal;
use std::io;
use std::io::Write;

// A number in decimal, after a blank.
pub(crate) fn write_number(out: &mut impl Write, n: u64) -> io::Result<()> {
    printing::text(out, b" ")?;
    printing::number(out, n)
}

// At most 32 bytes in hexadecimal.
pub(crate) fn write_hex(out: &mut impl Write, bytes: &[u8]) -> io::Result<()> {
    let mut text = [0u8; 64];
    let n = put_hex(&mut text, 0, bytes);
    printing::first(out, &text, n)
}

// A row's name and a tab.
pub(crate) fn write_name(out: &mut impl Write, name: &[u8]) -> io::Result<()> {
    printing::text(out, name)?;
    printing::text(out, b"\t")
}

// A row's name and its answer, as one line.
pub(crate) fn print(out: &mut impl Write, name: &[u8], answer: &[u8]) -> io::Result<()> {
    write_name(out, name)?;
    printing::text(out, answer)?;
    printing::text(out, b"\n")
}

// The same, with the first n bytes of a text.
pub(crate) fn print_first(
    out: &mut impl Write,
    name: &[u8],
    text: &[u8],
    n: usize,
) -> io::Result<()> {
    match text.get(..n) {
        Some(part) => print(out, name, part),
        None => Ok(()),
    }
}

// The same, with the first n bytes in hexadecimal.
pub(crate) fn print_hex(
    out: &mut impl Write,
    name: &[u8],
    bytes: &[u8],
    n: usize,
) -> io::Result<()> {
    let mut text = [0u8; 2048];
    match bytes.get(..n) {
        Some(part) => {
            let m = put_hex(&mut text, 0, part);
            print_first(out, name, &text, m)
        }
        None => Ok(()),
    }
}

// The number of a refused call.
pub(crate) fn print_refused(out: &mut impl Write, name: &[u8], refusal: Refusal) -> io::Result<()> {
    write_name(out, name)?;
    writeln!(out, "refused {}", refusal.number())
}
