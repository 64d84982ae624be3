// The machine-readable code of a receipt: made from a compact form, turned back into one, and the ID field in it.
ghost use Rattle.std.specs.Prelude.{◌≡◌, ◌+◌, ◌<◌, ◌≤◌, ◌≢◌, ℕ, length, take, drop, get_or, MatchOption};
ghost use Rattle.primitives.specs.Place.{placed};
ghost use Rattle.receipt.specs.Form.{further};
ghost use Rattle.receipt.specs.FormReading.{as_maybe, as_parts};
ghost use Rattle.receipt.specs.Code.{last_at, code_text, parts_of_code, code_answer, code_buffer, uncode_answer, uncode_buffer, nowhere, id_place, id_field};
ghost use Rattle.primitives.specs.Answers.{as_answer, written};

use super::form::{LONGEST_PAYLOAD, Parts, decode, next_at, put_form, read_form};
use primitives::{Alphabet, Refusal, base64_encode, base64_length, put};

// The longest code, for a caller's buffer: the longest payload, '_', 88 letters.
pub const LONGEST_CODE: usize = LONGEST_PAYLOAD + 1 + 88;

// ---- reading

// The place of the last b.
fn last_at(b: u8, s: &[u8]) -> Option<usize>
    ensures { MatchOption result ((k : ℕ) → k < length s.now → get_or s.now k 0 ≢ b)
        (λ i. (i < length s.now) × (get_or s.now i 0 ≡ b) × ((k : ℕ) → i < k → k < length s.now → get_or s.now k 0 ≢ b)) }
{
    s.iter().rposition(|x| *x == b)
}

// What stands before the last b, and what stands after it.
pub(crate) fn split_last<'a>(b: u8, s: &'a [u8]) -> Option<(&'a [u8], &'a [u8])>
    ensures { MatchOption result (length s.now ≤ last_at b s.now) (λ x. (last_at b s.now < length s.now)
        × (x.0.now ≡ take (last_at b s.now) s.now) × (x.1.now ≡ drop (last_at b s.now + 1) s.now)) }
{
    let at = last_at(b, s)?;
    Some((&s[..at], &s[at + 1..]))
}

// Reads the parts of a code: the payload is its start, the signature is written to the start of a buffer.
pub(crate) fn read_code<'a>(code: &'a [u8], signature: &'a mut [u8; 64]) -> Option<Parts<'a>>
    ensures { as_maybe as_parts result ≡ parts_of_code code.now }
{
    let (payload, letters) = split_last(b'_', code)?;
    let signature = decode(Alphabet::Standard, letters, signature)?;
    Parts { payload, signature }.good()
}

// ---- writing

// Writes a code to the start of the output.
fn put_code(parts: Parts, out: &mut [u8]) -> Result<usize, Refusal>
    requires { length parts.signature.now ≤ 64 }
    ensures { let y : _ = code_text (as_parts parts.entry) in
        (as_answer result ≡ written out.old y) × (out.new ≡ placed out.old 0 y) }
{
    let n = parts.payload.len();
    let length = n + 1 + base64_length(Alphabet::Standard, parts.signature);
    if out.len() < length {
        return Err(Refusal::OutputShort);
    }
    put(out, 0, parts.payload);
    put(out, n, b"_");
    base64_encode(Alphabet::Standard, parts.signature, out, n + 1);
    Ok(length)
}

// ---- the calls

// Writes the code of a compact form to the start of the output. Good parts? 22. Output long enough? 23.
pub fn code(form: &[u8], out: &mut [u8]) -> Result<usize, Refusal>
    ensures { (as_answer result ≡ code_answer form.now out.old) × (out.new ≡ code_buffer form.now out.old) }
{
    let mut payload = [0u8; LONGEST_PAYLOAD];
    let mut signature = [0u8; 64];
    let Some(parts) = read_form(form, &mut payload, &mut signature) else {
        return Err(Refusal::BadForm);
    };
    put_code(parts, out)
}

// Writes the compact form of a code to the start of the output. Good parts? 24. Output long enough? 23.
pub fn uncode(code: &[u8], out: &mut [u8]) -> Result<usize, Refusal>
    ensures { (as_answer result ≡ uncode_answer code.now out.old) × (out.new ≡ uncode_buffer code.now out.old) }
{
    let mut signature = [0u8; 64];
    let Some(parts) = read_code(code, &mut signature) else {
        return Err(Refusal::BadCode);
    };
    // No form is empty, so this is 0 only where there was no room.
    let end = put_form(parts, out, 0);
    if end == 0 {
        return Err(Refusal::OutputShort);
    }
    Ok(end)
}

// ---- the ID field

// The bytes from one place up to another.
#[derive(Clone, Copy)]
pub struct Part {
    pub start: usize,
    pub end: usize,
}

fn id_part(code: &[u8]) -> Option<Part>
    ensures { MatchOption result (id_place code.now ≡ nowhere) (λ p. (p ≡ id_place code.now) × (p.start ≤ p.end) × (p.end ≤ length code.now)) }
{
    let mut signature = [0u8; 64];
    let payload = read_code(code, &mut signature)?.payload;
    let start = next_at(b'_', payload, 1)? + 1;
    let end = next_at(b'_', payload, start)?;
    if start < end {
        Some(Part { start, end })
    } else {
        None
    }
}

// The place of the ID field in a code; 0 and 0 if uncode refuses the code or there is no such field.
// It is no `Option`: the calls from C return these two numbers.
pub fn id_place(code: &[u8]) -> Part
    ensures { (result ≡ id_place code.now) × (result.start ≤ result.end) × (result.end ≤ length code.now) }
{
    id_part(code).unwrap_or(Part { start: 0, end: 0 })
}

// The ID field of a code, as a part of it; an empty part if uncode refuses the code or there is no such field.
// The contract gives the part's bytes and where it lies: in the code's own memory, at the place of the field.
pub fn fields<'a>(code: &'a [u8]) -> &'a [u8]
    ensures { (result.now ≡ id_field code.now) × (result.ref_ptr ≡ further code.entry.ref_ptr (id_place code.now).start) }
{
    let place = id_place(code);
    &code[place.start..place.end]
}
