// RFC 4648, section 6: BASE32 with padding. Writer and reader put their result at a place in a buffer.
ghost use Rattle.std.specs.Prelude.{◌≡◌, length};
ghost use Rattle.std.proofs.Common.{refl, rules};
ghost use Rattle.primitives.specs.Place.{placed, place_after};
ghost use Rattle.primitives.specs.Base32.{LetterTable32, DigitTable32, base32, encoding32, encoded_length32, decode_answer32, decode_buffer32};

use crate::base64::DecodeError;
use crate::coding::Coding;
use crate::digits::Digits;

// The letters of the numbers 0 to 31.
static LETTERS: [u8; 32] = *b"ABCDEFGHIJKLMNOPQRSTUVWXYZ234567";

// The number of each letter, and 32 for any other byte.
static DIGITS: [u8; 256] = *b"\
    \x20\x20\x20\x20\x20\x20\x20\x20\x20\x20\x20\x20\x20\x20\x20\x20\
    \x20\x20\x20\x20\x20\x20\x20\x20\x20\x20\x20\x20\x20\x20\x20\x20\
    \x20\x20\x20\x20\x20\x20\x20\x20\x20\x20\x20\x20\x20\x20\x20\x20\
    \x20\x20\x1a\x1b\x1c\x1d\x1e\x1f\x20\x20\x20\x20\x20\x20\x20\x20\
    \x20\x00\x01\x02\x03\x04\x05\x06\x07\x08\x09\x0a\x0b\x0c\x0d\x0e\
    \x0f\x10\x11\x12\x13\x14\x15\x16\x17\x18\x19\x20\x20\x20\x20\x20\
    \x20\x20\x20\x20\x20\x20\x20\x20\x20\x20\x20\x20\x20\x20\x20\x20\
    \x20\x20\x20\x20\x20\x20\x20\x20\x20\x20\x20\x20\x20\x20\x20\x20\
    \x20\x20\x20\x20\x20\x20\x20\x20\x20\x20\x20\x20\x20\x20\x20\x20\
    \x20\x20\x20\x20\x20\x20\x20\x20\x20\x20\x20\x20\x20\x20\x20\x20\
    \x20\x20\x20\x20\x20\x20\x20\x20\x20\x20\x20\x20\x20\x20\x20\x20\
    \x20\x20\x20\x20\x20\x20\x20\x20\x20\x20\x20\x20\x20\x20\x20\x20\
    \x20\x20\x20\x20\x20\x20\x20\x20\x20\x20\x20\x20\x20\x20\x20\x20\
    \x20\x20\x20\x20\x20\x20\x20\x20\x20\x20\x20\x20\x20\x20\x20\x20\
    \x20\x20\x20\x20\x20\x20\x20\x20\x20\x20\x20\x20\x20\x20\x20\x20\
    \x20\x20\x20\x20\x20\x20\x20\x20\x20\x20\x20\x20\x20\x20\x20\x20\
";

#[derive(Clone, Copy)]
struct Base32;

impl Digits for Base32 {
    ghost base = { λ x. base32 };

    ghost RADIX = { 32 };

    ghost BITS = { 5 };

    const RADIX: u64 = 32;

    const BITS: usize = 5;

    fn letter(&self, d: u8) -> u8 {
        LETTERS[d as usize]
    }

    fn digit(&self, c: u8) -> u8 {
        DIGITS[c as usize]
    }

    ghost some = { Prim.search rules };

    ghost small = { Prim.search rules };

    ghost radix = { λ x. refl };

    ghost bits = { λ x. refl };

    ghost wide = { λ x. Prim.search rules };
}

fn coding() -> Coding<Base32> {
    Coding {
        digits: Base32,
        group: 8,
    }
}

// The length of the text of `s`.
pub fn base32_length(s: &[u8]) -> usize
    ensures { result ≡ encoded_length32 (length s.now) }
{
    coding().text_length(s)
}

// Writes the text of `s` at a place, or nothing if there is no room for all of it; returns the place after what was written.
#[tactic(auto, unfolding(crate::specs::Base32::encoding32))]
pub fn base32_encode(s: &[u8], out: &mut [u8], at: usize) -> usize
    ensures { let text : _ = encoding32 s.now in
        (result ≡ place_after out.old at text) × (out.new ≡ placed out.old at text) }
{
    coding().encode(s, out, at)
}

// Strict reader: writes the bytes of a text at a place; returns the place after them.
// If the text is refused (wrong padding, foreign letter, unused bits not zero) or there is no room, the buffer is unchanged.
#[tactic(auto, unfolding(crate::specs::Base32::decoding32))]
pub fn base32_decode(s: &[u8], out: &mut [u8], at: usize) -> Result<usize, DecodeError>
    ensures { let text : _ = s.now in
        (result ≡ decode_answer32 text out.old at) × (out.new ≡ decode_buffer32 text out.old at) }
{
    coding().decode(s, out, at)
}
