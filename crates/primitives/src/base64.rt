// RFC 4648: BASE64 with padding and BASE64-URL without. Writer and reader put their result at a place in a buffer.
ghost use Rattle.std.specs.Prelude.{◌≡◌, length};
ghost use Rattle.std.proofs.Common.{refl, rules};
ghost use Rattle.primitives.specs.Place.{placed, place_after};
ghost use Rattle.primitives.specs.Base64.{LetterTable, DigitTable, base64, encoding, encoded_length, decode_answer, decode_buffer};

use crate::coding::Coding;
use crate::digits::Digits;

// Standard: RFC 4648, section 4, padded with '='. UrlSafe: section 5, without padding.
#[derive(Clone, Copy)]
pub enum Alphabet {
    Standard,
    UrlSafe,
}

// Why a text was not read: it is not the text of any bytes, or there is no room for them.
#[derive(Clone, Copy, PartialEq, Eq)]
pub enum DecodeError {
    Refused,
    NoRoom,
}

// The letters of the numbers 0 to 63.
static STANDARD_LETTERS: [u8; 64] = *b"\
    ABCDEFGHIJKLMNOP\
    QRSTUVWXYZabcdef\
    ghijklmnopqrstuv\
    wxyz0123456789+/\
";

static URL_SAFE_LETTERS: [u8; 64] = *b"\
    ABCDEFGHIJKLMNOP\
    QRSTUVWXYZabcdef\
    ghijklmnopqrstuv\
    wxyz0123456789-_\
";

// The number of each letter, and 64 for any other byte.
static STANDARD_DIGITS: [u8; 256] = *b"\
    \x40\x40\x40\x40\x40\x40\x40\x40\x40\x40\x40\x40\x40\x40\x40\x40\
    \x40\x40\x40\x40\x40\x40\x40\x40\x40\x40\x40\x40\x40\x40\x40\x40\
    \x40\x40\x40\x40\x40\x40\x40\x40\x40\x40\x40\x3e\x40\x40\x40\x3f\
    \x34\x35\x36\x37\x38\x39\x3a\x3b\x3c\x3d\x40\x40\x40\x40\x40\x40\
    \x40\x00\x01\x02\x03\x04\x05\x06\x07\x08\x09\x0a\x0b\x0c\x0d\x0e\
    \x0f\x10\x11\x12\x13\x14\x15\x16\x17\x18\x19\x40\x40\x40\x40\x40\
    \x40\x1a\x1b\x1c\x1d\x1e\x1f\x20\x21\x22\x23\x24\x25\x26\x27\x28\
    \x29\x2a\x2b\x2c\x2d\x2e\x2f\x30\x31\x32\x33\x40\x40\x40\x40\x40\
    \x40\x40\x40\x40\x40\x40\x40\x40\x40\x40\x40\x40\x40\x40\x40\x40\
    \x40\x40\x40\x40\x40\x40\x40\x40\x40\x40\x40\x40\x40\x40\x40\x40\
    \x40\x40\x40\x40\x40\x40\x40\x40\x40\x40\x40\x40\x40\x40\x40\x40\
    \x40\x40\x40\x40\x40\x40\x40\x40\x40\x40\x40\x40\x40\x40\x40\x40\
    \x40\x40\x40\x40\x40\x40\x40\x40\x40\x40\x40\x40\x40\x40\x40\x40\
    \x40\x40\x40\x40\x40\x40\x40\x40\x40\x40\x40\x40\x40\x40\x40\x40\
    \x40\x40\x40\x40\x40\x40\x40\x40\x40\x40\x40\x40\x40\x40\x40\x40\
    \x40\x40\x40\x40\x40\x40\x40\x40\x40\x40\x40\x40\x40\x40\x40\x40\
";

static URL_SAFE_DIGITS: [u8; 256] = *b"\
    \x40\x40\x40\x40\x40\x40\x40\x40\x40\x40\x40\x40\x40\x40\x40\x40\
    \x40\x40\x40\x40\x40\x40\x40\x40\x40\x40\x40\x40\x40\x40\x40\x40\
    \x40\x40\x40\x40\x40\x40\x40\x40\x40\x40\x40\x40\x40\x3e\x40\x40\
    \x34\x35\x36\x37\x38\x39\x3a\x3b\x3c\x3d\x40\x40\x40\x40\x40\x40\
    \x40\x00\x01\x02\x03\x04\x05\x06\x07\x08\x09\x0a\x0b\x0c\x0d\x0e\
    \x0f\x10\x11\x12\x13\x14\x15\x16\x17\x18\x19\x40\x40\x40\x40\x3f\
    \x40\x1a\x1b\x1c\x1d\x1e\x1f\x20\x21\x22\x23\x24\x25\x26\x27\x28\
    \x29\x2a\x2b\x2c\x2d\x2e\x2f\x30\x31\x32\x33\x40\x40\x40\x40\x40\
    \x40\x40\x40\x40\x40\x40\x40\x40\x40\x40\x40\x40\x40\x40\x40\x40\
    \x40\x40\x40\x40\x40\x40\x40\x40\x40\x40\x40\x40\x40\x40\x40\x40\
    \x40\x40\x40\x40\x40\x40\x40\x40\x40\x40\x40\x40\x40\x40\x40\x40\
    \x40\x40\x40\x40\x40\x40\x40\x40\x40\x40\x40\x40\x40\x40\x40\x40\
    \x40\x40\x40\x40\x40\x40\x40\x40\x40\x40\x40\x40\x40\x40\x40\x40\
    \x40\x40\x40\x40\x40\x40\x40\x40\x40\x40\x40\x40\x40\x40\x40\x40\
    \x40\x40\x40\x40\x40\x40\x40\x40\x40\x40\x40\x40\x40\x40\x40\x40\
    \x40\x40\x40\x40\x40\x40\x40\x40\x40\x40\x40\x40\x40\x40\x40\x40\
";

// An alphabet with its tables.
#[derive(Clone, Copy)]
struct Tables {
    alphabet: Alphabet,
    letters: &'static [u8; 64],
    digits: &'static [u8; 256],
    ghost spelled: { LetterTable alphabet letters.now },
    ghost read: { DigitTable alphabet digits.now },
}

impl Digits for Tables {
    ghost base = { λ x. base64 x.alphabet };

    ghost RADIX = { 64 };

    ghost BITS = { 6 };

    const RADIX: u64 = 64;

    const BITS: usize = 6;

    fn letter(&self, d: u8) -> u8 {
        self.letters[d as usize]
    }

    fn digit(&self, c: u8) -> u8 {
        self.digits[c as usize]
    }

    ghost some = { Prim.search rules };

    ghost small = { Prim.search rules };

    ghost radix = { λ x. refl };

    ghost bits = { λ x. refl };

    ghost wide = { λ x. Prim.search rules };
}

// A table is lent and not copied: an indexed constant would be rebuilt on the stack at each evaluation.
fn tables_of(alphabet: Alphabet) -> Tables
    ensures { result.alphabet ≡ alphabet }
{
    match alphabet {
        Alphabet::Standard => Tables {
            alphabet,
            letters: &STANDARD_LETTERS,
            digits: &STANDARD_DIGITS,
        },
        Alphabet::UrlSafe => Tables {
            alphabet,
            letters: &URL_SAFE_LETTERS,
            digits: &URL_SAFE_DIGITS,
        },
    }
}

fn coding_of(alphabet: Alphabet) -> Coding<Tables>
    ensures { result.digits.alphabet ≡ alphabet }
{
    let group = match alphabet {
        Alphabet::Standard => 4,
        Alphabet::UrlSafe => 1,
    };
    Coding {
        digits: tables_of(alphabet),
        group,
    }
}

// The length of the text of `s`.
pub fn base64_length(alphabet: Alphabet, s: &[u8]) -> usize
    ensures { result ≡ encoded_length alphabet (length s.now) }
{
    coding_of(alphabet).text_length(s)
}

// Writes the text of `s` at a place, or nothing if there is no room for all of it; returns the place after what was written.
pub fn base64_encode(alphabet: Alphabet, s: &[u8], out: &mut [u8], at: usize) -> usize
    ensures { let text : _ = encoding alphabet s.now in
        (result ≡ place_after out.old at text) × (out.new ≡ placed out.old at text) }
{
    coding_of(alphabet).encode(s, out, at)
}

// Strict reader: writes the bytes of a text at a place; returns the place after them.
// If the text is refused (wrong padding, foreign letter, unused bits not zero) or there is no room, the buffer is unchanged.
pub fn base64_decode(
    alphabet: Alphabet,
    s: &[u8],
    out: &mut [u8],
    at: usize,
) -> Result<usize, DecodeError>
    ensures { let text : _ = s.now in
        (result ≡ decode_answer alphabet text out.old at) × (out.new ≡ decode_buffer alphabet text out.old at) }
{
    coding_of(alphabet).decode(s, out, at)
}
