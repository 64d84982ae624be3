// The rows of the primitives' vectors.
use super::lines::{print, print_first, print_hex};
use super::text::{decimal, digits, field, unhex};
use primitives::{Alphabet, DecodeError};
use std::io;
use std::io::Write;

// The digest of a text's first n bytes.
pub(crate) fn print_digest(
    out: &mut impl Write,
    name: &[u8],
    text: &[u8],
    n: usize,
) -> io::Result<()> {
    match text.get(..n) {
        Some(part) => print_hex(out, name, &primitives::sha256(part), 32),
        None => Ok(()),
    }
}

pub(crate) fn sha256_row(out: &mut impl Write, line: &[u8]) -> io::Result<()> {
    let mut message = [0u8; 1024];
    let n = unhex(field(line, 1), &mut message);
    print_digest(out, field(line, 0), &message, n)
}

// Encrypted at once, and under the expanded key.
pub(crate) fn aes256_row(out: &mut impl Write, line: &[u8]) -> io::Result<()> {
    let mut key = [0u8; 32];
    let mut block = [0u8; 16];
    unhex(field(line, 1), &mut key);
    unhex(field(line, 2), &mut block);
    let whole = primitives::aes256(key, block);
    print_hex(out, field(line, 0), &whole, 16)?;
    let schedule = primitives::expand_key(key);
    let parted = primitives::encrypt_block(&schedule, block);
    print_hex(out, field(line, 0), &parted, 16)
}

// The bases of the vectors: padded BASE64, BASE64-URL and BASE32.
#[derive(Clone, Copy)]
enum Base {
    Standard,
    UrlSafe,
    Base32,
}

fn base_of(name: &[u8]) -> Base {
    match name {
        [b'u', ..] => Base::UrlSafe,
        [b'b', ..] => Base::Base32,
        _ => Base::Standard,
    }
}

fn encode(base: Base, bytes: &[u8], out: &mut [u8]) -> usize {
    match base {
        Base::Standard => primitives::base64_encode(Alphabet::Standard, bytes, out, 0),
        Base::UrlSafe => primitives::base64_encode(Alphabet::UrlSafe, bytes, out, 0),
        Base::Base32 => primitives::base32_encode(bytes, out, 0),
    }
}

fn decode(base: Base, text: &[u8], out: &mut [u8]) -> Result<usize, DecodeError> {
    match base {
        Base::Standard => primitives::base64_decode(Alphabet::Standard, text, out, 0),
        Base::UrlSafe => primitives::base64_decode(Alphabet::UrlSafe, text, out, 0),
        Base::Base32 => primitives::base32_decode(text, out, 0),
    }
}

// The text of bytes.
fn encoded(out: &mut impl Write, name: &[u8], base: Base, bytes: &[u8]) -> io::Result<()> {
    let mut text = [0u8; 1024];
    let n = encode(base, bytes, &mut text);
    print_first(out, name, &text, n)
}

// Bytes that were read, and their text again.
fn decoded(
    out: &mut impl Write,
    name: &[u8],
    base: Base,
    bytes: &[u8],
    n: usize,
) -> io::Result<()> {
    print_hex(out, name, bytes, n)?;
    match bytes.get(..n) {
        Some(read) => encoded(out, name, base, read),
        None => Ok(()),
    }
}

// What the strict reader makes of a text's first n bytes; what it reads is written again.
fn print_decoded(
    out: &mut impl Write,
    name: &[u8],
    base: Base,
    text: &[u8],
    n: usize,
) -> io::Result<()> {
    let Some(letters) = text.get(..n) else {
        return Ok(());
    };
    let mut bytes = [0u8; 1024];
    match decode(base, letters, &mut bytes) {
        Ok(m) => decoded(out, name, base, &bytes, m),
        Err(DecodeError::Refused) => print(out, name, b"refused"),
        Err(DecodeError::NoRoom) => print(out, name, b"no room"),
    }
}

pub(crate) fn base_row(out: &mut impl Write, line: &[u8]) -> io::Result<()> {
    let mut text = [0u8; 1024];
    let n = unhex(field(line, 2), &mut text);
    print_decoded(out, field(line, 0), base_of(field(line, 1)), &text, n)
}

// A counter's bytes, where it fits, and the counter back from them.
pub(crate) fn counter_row(out: &mut impl Write, line: &[u8]) -> io::Result<()> {
    let n = digits(field(line, 0), 0) as usize;
    let z = decimal(field(line, 1));
    if !primitives::counter_fits(n, z) {
        return print(out, field(line, 1), b"no");
    }
    let bytes = primitives::counter_bytes(n, z);
    print_hex(out, field(line, 1), &bytes, n)?;
    if primitives::counter_value(n, bytes) == z {
        print(out, field(line, 1), b"back")?;
    }
    Ok(())
}
