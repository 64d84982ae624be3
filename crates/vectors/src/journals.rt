// The journals: a register is opened, its receipts are issued one after the other, and its journal is taken over.
use super::lines::{print, print_first, print_refused, write_hex, write_name, write_number};
use super::primitive::print_digest;
use super::receipts::{number_of, settings_of};
use super::takeovers::print_taken;
use super::text::{decimal, digits, field, unhex};
use journal::State;
use receipt::{DateTime, Details, Kind, LONGEST_COMPACT, Name, Settings};
use std::io;
use std::io::Write;

// ---- what is printed

// Last number and receipts issued.
fn write_counts(out: &mut impl Write, st: State) -> io::Result<()> {
    write_number(out, u64::from(st.last))?;
    write_number(out, u64::from(st.issued))
}

// A state as one line: counter, last number, receipts issued, chain bytes, journal length.
fn print_state(out: &mut impl Write, name: &[u8], st: State) -> io::Result<()> {
    write_name(out, name)?;
    printing::cents(out, st.counter)?;
    write_counts(out, st)?;
    printing::text(out, b" ")?;
    write_hex(out, &st.chain)?;
    write_number(out, st.length as u64)?;
    printing::text(out, b"\n")
}

// An ID or a serial, after a blank.
fn write_letters(out: &mut impl Write, n: Name) -> io::Result<()> {
    printing::text(out, b" ")?;
    printing::first(out, &n.bytes, n.len)
}

// The settings as one line: CSP, ID, serial, width.
fn print_settings(out: &mut impl Write, name: &[u8], s: Settings, width: usize) -> io::Result<()> {
    write_name(out, name)?;
    printing::text(out, &s.csp)?;
    write_letters(out, s.id)?;
    write_letters(out, s.serial)?;
    write_number(out, width as u64)?;
    printing::text(out, b"\n")
}

// The compact form of the entry between two places of a journal.
fn print_entry(
    out: &mut impl Write,
    name: &[u8],
    buf: &[u8],
    a: usize,
    e: usize,
) -> io::Result<()> {
    if buf.len() < e || e < 2 || e - 2 < a {
        return Ok(());
    }
    print(out, name, &buf[a + 2..e])
}

// ---- a register is opened

fn open_row(out: &mut impl Write, line: &[u8], buf: &mut [u8]) -> io::Result<State> {
    let s = settings_of(field(line, 2), field(line, 3), field(line, 4));
    let n = digits(field(line, 5), 0) as usize;
    let mut key = [0u8; 32];
    unhex(field(line, 6), &mut key);
    match journal::open(s, key, false, n, buf) {
        Ok(st) => {
            print_state(out, field(line, 1), st)?;
            Ok(st)
        }
        Err(refusal) => {
            print_refused(out, field(line, 1), refusal)?;
            Ok(journal::unopened())
        }
    }
}

// ---- a receipt is issued

fn number_in(line: &[u8], k: usize) -> u32 {
    number_of(field(line, k))
}

fn cents_in(line: &[u8], k: usize) -> i64 {
    decimal(field(line, k))
}

fn date_of(line: &[u8]) -> DateTime {
    DateTime {
        year: number_in(line, 3),
        month: number_in(line, 4),
        day: number_in(line, 5),
        hour: number_in(line, 6),
        minute: number_in(line, 7),
        second: number_in(line, 8),
    }
}

fn amounts_of(line: &[u8]) -> [i64; 5] {
    [
        cents_in(line, 9),
        cents_in(line, 10),
        cents_in(line, 11),
        cents_in(line, 12),
        cents_in(line, 13),
    ]
}

// The kind by its first letter.
fn kind_of(name: &[u8]) -> Kind {
    match name {
        [b'c', ..] => Kind::Cancellation,
        [b't', ..] => Kind::Training,
        _ => Kind::Standard,
    }
}

fn details_of(line: &[u8]) -> Details {
    Details {
        number: number_in(line, 2),
        date: date_of(line),
        amounts: amounts_of(line),
        kind: kind_of(field(line, 14)),
    }
}

// The text that the device is given to sign.
fn print_prepared(out: &mut impl Write, name: &[u8], st: State, d: Details) -> io::Result<()> {
    let mut text = [0u8; LONGEST_COMPACT];
    match journal::prepare(st, d, &mut text) {
        Ok(n) => print_first(out, name, &text, n),
        Err(refusal) => print_refused(out, name, refusal),
    }
}

// A receipt with the first n bytes of a signature: its compact form in the buffer, and the state after it.
fn issue(
    out: &mut impl Write,
    name: &[u8],
    st: State,
    d: Details,
    signature: &[u8],
    n: usize,
    buf: &mut [u8],
) -> io::Result<State> {
    let Some(signed) = signature.get(..n) else {
        return Ok(st);
    };
    match journal::issue(st, d, signed, buf) {
        Ok(next) => {
            print_entry(out, name, buf, st.length, next.length)?;
            print_state(out, name, next)?;
            Ok(next)
        }
        Err(refusal) => {
            print_refused(out, name, refusal)?;
            Ok(st)
        }
    }
}

// A row without a signature is that of a failed device.
fn issue_row(out: &mut impl Write, st: State, line: &[u8], buf: &mut [u8]) -> io::Result<State> {
    let d = details_of(line);
    let mut signature = [0u8; 64];
    let n = unhex(field(line, 15), &mut signature);
    print_prepared(out, field(line, 1), st, d)?;
    issue(out, field(line, 1), st, d, &signature, n, buf)
}

// ---- the journal is taken over

fn take_over(out: &mut impl Write, name: &[u8], buf: &[u8], st: State) -> io::Result<()> {
    let Some(bytes) = buf.get(..st.length) else {
        return Ok(());
    };
    let taken = journal::take_over(bytes, st.key, st.width);
    let found = taken.unwrap_or(journal::unopened());
    print_taken(out, name, taken)?;
    print_settings(out, name, journal::settings_now(found), found.width)?;
    print_state(out, name, found)
}

// The state of the register, the digest of its journal, and what the journal's take-over finds.
fn end_row(out: &mut impl Write, st: State, line: &[u8], buf: &[u8]) -> io::Result<()> {
    let name = field(line, 1);
    print_state(out, name, st)?;
    print_digest(out, name, buf, st.length)?;
    take_over(out, name, buf, st)
}

// ---- a row

// The state after a row, by the first letter of its call.
pub(crate) fn row(
    out: &mut impl Write,
    st: State,
    line: &[u8],
    buf: &mut [u8],
) -> io::Result<State> {
    match line {
        [] => Ok(st),
        [b'o', ..] => open_row(out, line, buf),
        [b'i', ..] => issue_row(out, st, line, buf),
        _ => {
            end_row(out, st, line, buf)?;
            Ok(st)
        }
    }
}
