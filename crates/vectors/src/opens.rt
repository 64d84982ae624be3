// Open, with the mark of a shared key and without it, into a buffer of the row's size.
use super::lines::{print_hex, print_refused};
use super::receipts::settings_of;
use super::text::{digits, field, unhex};
use receipt::Settings;
use std::io;
use std::io::Write;

// CSP, ID in hexadecimal, and serial. No row has an ID of more than 32 bytes.
fn settings_in(line: &[u8]) -> Settings {
    let mut id = [0u8; 32];
    let n = unhex(field(line, 2), &mut id);
    settings_of(field(line, 1), id.get(..n).unwrap_or(b""), field(line, 3))
}

// The head that is written, or the number.
fn open_into(out: &mut impl Write, line: &[u8], buf: &mut [u8]) -> io::Result<()> {
    let s = settings_in(line);
    let n = digits(field(line, 4), 0) as usize;
    let shared = digits(field(line, 6), 0) == 1;
    match journal::open(s, [0u8; 32], shared, n, buf) {
        Ok(st) => print_hex(out, field(line, 0), buf, st.length),
        Err(refusal) => print_refused(out, field(line, 0), refusal),
    }
}

pub(crate) fn row(out: &mut impl Write, line: &[u8]) -> io::Result<()> {
    let mut buf = [0u8; 128];
    let room = digits(field(line, 5), 0) as usize;
    if room <= 128 {
        open_into(out, line, &mut buf[..room])?;
    }
    Ok(())
}
