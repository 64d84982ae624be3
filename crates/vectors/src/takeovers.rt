// The rows of the journals that are taken over.
use super::lines::write_name;
use super::text::{digits, field, unhex};
use journal::{RefusedAt, State};
use std::io;
use std::io::Write;

// The longest input that `takeover` reads.
const LONGEST_INPUT: usize = 65536;

// What a take-over answered: receipts and counter, or number and index.
pub(crate) fn print_taken(
    out: &mut impl Write,
    name: &[u8],
    taken: Result<State, RefusedAt>,
) -> io::Result<()> {
    write_name(out, name)?;
    match taken {
        Ok(st) => printing::accepted(out, st.issued, st.counter),
        Err(refused) => printing::refused(out, refused.question.number(), refused.index),
    }
}

// An input: one byte N, 32 bytes of key, then the journal.
fn print_input(out: &mut impl Write, name: &[u8], input: &[u8]) -> io::Result<()> {
    if input.len() < 33 {
        return Ok(());
    }
    let mut key = [0u8; 32];
    key.copy_from_slice(&input[1..33]);
    let width = usize::from(input[0]);
    print_taken(out, name, journal::take_over(&input[33..], key, width))
}

// An input in hexadecimal, and the number of zero bytes after it.
pub(crate) fn row(out: &mut impl Write, line: &[u8]) -> io::Result<()> {
    let mut input = [0u8; LONGEST_INPUT];
    let m = unhex(field(line, 1), &mut input);
    let zeros = digits(field(line, 2), 0) as usize;
    if LONGEST_INPUT < m || LONGEST_INPUT - m < zeros {
        return Ok(());
    }
    print_input(out, field(line, 0), &input[..m + zeros])
}
