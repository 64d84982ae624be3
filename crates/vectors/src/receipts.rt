// The rows of the receipt layer's vectors.
use super::lines::{print, print_first, print_hex, print_refused};
use super::text::{decimal, digits, field, unhex};
use primitives::{Alphabet, Refusal};
use receipt::{
    DateTime, Details, Entry, Kind, LONGEST_CODE, LONGEST_COMPACT, PayloadFields, Settings,
    Signature,
};
use std::io;
use std::io::Write;

// The chain value of a text, and its field.
pub(crate) fn chain_row(out: &mut impl Write, line: &[u8]) -> io::Result<()> {
    let value = receipt::chain_value(field(line, 1));
    print_hex(out, field(line, 0), &value, 8)?;
    let mut text = [0u8; 12];
    let n = primitives::base64_encode(Alphabet::Standard, &value, &mut text, 0);
    print_first(out, field(line, 0), &text, n)
}

// A number below 2^32; 0 if it is larger.
pub(crate) fn number_of(text: &[u8]) -> u32 {
    u32::try_from(digits(text, 0)).unwrap_or(0)
}

// The IV of a receipt's counter.
pub(crate) fn iv_row(out: &mut impl Write, line: &[u8]) -> io::Result<()> {
    let iv = receipt::counter_iv(receipt::name_of(field(line, 1)), number_of(field(line, 2)));
    print_hex(out, field(line, 0), &iv, 16)
}

// A counter encrypted, and whether it comes back.
pub(crate) fn counter_row(out: &mut impl Write, line: &[u8]) -> io::Result<()> {
    let n = digits(field(line, 0), 0) as usize;
    let mut key = [0u8; 32];
    unhex(field(line, 1), &mut key);
    let schedule = receipt::counter_key(key);
    let id = receipt::name_of(field(line, 2));
    let number = number_of(field(line, 3));
    let cents = decimal(field(line, 4));
    let bytes = receipt::encrypt_counter(&schedule, id, number, n, cents);
    print_hex(out, field(line, 4), &bytes, n)?;
    if receipt::decrypt_counter(&schedule, id, number, n, bytes) == cents {
        print(out, field(line, 4), b"back")?;
    }
    Ok(())
}

// What a call that writes a text answered.
fn print_answer(
    out: &mut impl Write,
    name: &[u8],
    answer: Result<usize, Refusal>,
    text: &[u8],
) -> io::Result<()> {
    match answer {
        Ok(n) => print_hex(out, name, text, n),
        Err(refusal) => print_refused(out, name, refusal),
    }
}

// A call of code, uncode, line, unline ("back") or fields on a text in hexadecimal.
pub(crate) fn code_row(out: &mut impl Write, line: &[u8]) -> io::Result<()> {
    let name = field(line, 0);
    let mut text = [0u8; 1024];
    let n = unhex(field(line, 2), &mut text);
    let Some(given) = text.get(..n) else {
        return Ok(());
    };
    let mut made = [0u8; 512];
    let answer = match field(line, 1) {
        [] => return Ok(()),
        [b'c', ..] => receipt::code(given, &mut made),
        [b'u', ..] => receipt::uncode(given, &mut made),
        [b'l', ..] => receipt::line(given, &mut made),
        [b'b', ..] => receipt::unline(given, &mut made),
        _ => return print(out, name, receipt::fields(given)),
    };
    print_answer(out, name, answer, &made)
}

// The settings of a row: CSP, register ID and serial.
pub(crate) fn settings_of(csp: &[u8], id: &[u8], serial: &[u8]) -> Settings {
    let mut letters = [0u8; 3];
    primitives::put(&mut letters, 0, csp);
    Settings {
        csp: letters,
        id: receipt::name_of(id),
        serial: receipt::name_of(serial),
    }
}

// The compact form of an entry.
fn print_compact(
    out: &mut impl Write,
    name: &[u8],
    s: Settings,
    n: usize,
    e: Entry,
) -> io::Result<()> {
    let mut form = [0u8; LONGEST_COMPACT];
    let m = receipt::put_compact(s, n, e, &mut form, 0);
    print_first(out, name, &form, m)
}

// The first n of eight bytes, in hexadecimal.
fn print_eight(out: &mut impl Write, name: &[u8], bytes: [u8; 8], n: usize) -> io::Result<()> {
    print_hex(out, name, &bytes, n)
}

// A compact form that is read: its counter and chain bytes, and the form that its entry spells.
pub(crate) fn compact_row(out: &mut impl Write, line: &[u8]) -> io::Result<()> {
    let name = field(line, 0);
    let s = settings_of(field(line, 1), field(line, 2), field(line, 3));
    let n = digits(field(line, 4), 0) as usize;
    let Some(e) = receipt::read_entry(s, n, field(line, 5)) else {
        return print(out, name, b"refused");
    };
    print_eight(out, name, e.fields.counter, n)?;
    print_eight(out, name, e.fields.chain, 8)?;
    print_compact(out, name, s, n, e)
}

// A training receipt of one amount, for a register whose device has failed.
fn entry_of(cents: i64) -> Entry {
    Entry {
        fields: PayloadFields {
            details: Details {
                number: 1,
                date: DateTime {
                    year: 2016,
                    month: 2,
                    day: 29,
                    hour: 8,
                    minute: 5,
                    second: 0,
                },
                amounts: [cents, 0, 0, 0, 0],
                kind: Kind::Training,
            },
            counter: [0u8; 8],
            chain: [0u8; 8],
        },
        signature: Signature {
            failed: true,
            bytes: [0u8; 64],
        },
    }
}

// The code of the first n bytes of a compact form.
fn print_code(out: &mut impl Write, name: &[u8], form: &[u8], n: usize) -> io::Result<()> {
    let Some(form) = form.get(..n) else {
        return Ok(());
    };
    let mut code = [0u8; LONGEST_CODE];
    let length = receipt::code(form, &mut code).unwrap_or(0);
    print_first(out, name, &code, length)
}

// An amount, as the code of a receipt spells it.
pub(crate) fn amount_row(out: &mut impl Write, line: &[u8]) -> io::Result<()> {
    let mut form = [0u8; LONGEST_COMPACT];
    let e = entry_of(decimal(field(line, 0)));
    let n = receipt::put_compact(settings_of(b"AT0", b"A", b"0"), 5, e, &mut form, 0);
    print_code(out, field(line, 0), &form, n)
}
