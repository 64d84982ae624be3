// The optical line of a code, for printers that cannot draw a square code, and the way back.
ghost use Rattle.std.specs.Prelude.{◌≡◌, true, false, ◌+◌, ◌*◌, ◌≤◌, ◌==◌, ◌∷◌, length, MatchOption, count_by};
ghost use Rattle.std.proofs.Math.Option.{none, some};
ghost use Rattle.primitives.specs.Place.{overwrite, placed, place_after};
ghost use Rattle.primitives.specs.Answers.{as_answer, written};
ghost use Rattle.receipt.specs.Texts.{separator};
ghost use Rattle.receipt.specs.FormReading.{as_maybe, fitting};
ghost use Rattle.receipt.specs.Line.{spell, unspell, text_in, marks_there, code_fields_good, fields_of, line_answer, line_buffer, unline_answer, unline_buffer};
ghost use Rattle.receipt.specs.LineReading.{longest_fields, as_fields, pieces};

use super::bytes::put8;
use super::form::{LONGEST_PAYLOAD, payload_good, signature_good};
use super::machine_code::{read_code, split_last};
use primitives::{
    Alphabet, Refusal, base32_decode, base32_encode, base32_length, base64_decode, base64_encode,
    base64_length, put,
};

// The most bytes of counter field, chain field and signature together: a code has four letters for three bytes of the first two, all of them in its payload.
const LONGEST_FIELDS: usize = LONGEST_PAYLOAD * 3 / 4 + 64;

// A '_' stands before each of the first nine fields of a code.
const START_MARKS: usize = 9;

// ---- the spelled fields

// How counter field, chain field and signature are spelled: in a code in BASE64, in a line in BASE32.
// An enum and no trait: the statements about codes and lines (`spell`, `text_in`) name both spellings by it.
#[derive(Clone, Copy)]
pub(crate) enum Spelling {
    Base64,
    Base32,
}

impl Spelling {
    // The length of the text of a field.
    fn length(self, s: &[u8]) -> usize
        ensures { (result ≡ length (spell self s.now)) × (result ≤ 2 * length s.now + 8) }
    {
        match self {
            Spelling::Base64 => base64_length(Alphabet::Standard, s),
            Spelling::Base32 => base32_length(s),
        }
    }

    // Writes the text of a field at a place; returns the place after it.
    fn encode(self, s: &[u8], out: &mut [u8], at: usize) -> usize
        ensures { let y : _ = spell self s.now in
            (result ≡ place_after out.old at y) × (out.new ≡ placed out.old at y) }
    {
        match self {
            Spelling::Base64 => base64_encode(Alphabet::Standard, s, out, at),
            Spelling::Base32 => base32_encode(s, out, at),
        }
    }

    // Strict reader: writes the bytes of a field to the start of a buffer, and lends them and the rest of the buffer.
    fn decode<'a>(self, text: &[u8], buffer: &'a mut [u8]) -> Option<(&'a [u8], &'a mut [u8])>
        ensures { MatchOption result (fitting (length buffer.old) (unspell self text.now) ≡ none)
            (λ x. (fitting (length buffer.old) (unspell self text.now) ≡ some x.0.now) × (length x.0.now + length x.1.now ≡ length buffer.old)) }
    {
        let read = match self {
            Spelling::Base64 => base64_decode(Alphabet::Standard, text, buffer, 0),
            Spelling::Base32 => base32_decode(text, buffer, 0),
        };
        let (bytes, rest) = buffer.split_at_mut(read.ok()?);
        Some((bytes, rest))
    }
}

// ---- reading

// The fields of a code: '_' and the first nine, joined by '_'; counter field; serial; chain field; and the signature.
// As a text spells them, or counter field, chain field and signature as bytes.
#[derive(Clone, Copy)]
struct CodeFields<'a> {
    start: &'a [u8],
    counter: &'a [u8],
    serial: &'a [u8],
    chain: &'a [u8],
    signature: &'a [u8],
}

// Splits a text at its last four '_'.
fn split<'a>(text: &'a [u8]) -> Option<CodeFields<'a>>
    ensures { MatchOption result (marks_there text.now ≡ false) (λ f. (marks_there text.now ≡ true) × (as_fields f ≡ pieces text.now)) }
{
    let (text, signature) = split_last(b'_', text)?;
    let (text, chain) = split_last(b'_', text)?;
    let (text, serial) = split_last(b'_', text)?;
    let (start, counter) = split_last(b'_', text)?;
    Some(CodeFields {
        start,
        counter,
        serial,
        chain,
        signature,
    })
}

// How often b occurs.
fn count_of(b: u8, s: &[u8]) -> usize
    ensures { result ≡ count_by (λ x. x == b) s.now }
{
    s.iter().filter(|x| **x == b).count()
}

// Twelve fields, a good payload and a good signature, asked of the code. The payload begins with its first nine fields.
fn fields_good(f: CodeFields) -> bool
    requires { (length f.counter.now ≤ longest_fields) × (length f.chain.now ≤ longest_fields) }
    ensures { result ≡ code_fields_good (as_fields f.entry) }
{
    if count_of(b'_', f.start) != START_MARKS
        || count_of(b'_', f.serial) != 0
        || !payload_good(f.start)
    {
        return false;
    }
    let tenth = base64_length(Alphabet::Standard, f.counter);
    let twelfth = base64_length(Alphabet::Standard, f.chain);
    f.start.len() + tenth + twelfth + 3 + f.serial.len() <= LONGEST_PAYLOAD
        && signature_good(f.signature)
}

// Reads the fields of a text; the bytes of the spelled ones are written to a buffer, one after the other.
fn read_fields<'a>(
    spelling: Spelling,
    text: &'a [u8],
    buffer: &'a mut [u8; LONGEST_FIELDS],
) -> Option<CodeFields<'a>>
    ensures { as_maybe as_fields result ≡ fields_of spelling text.now }
{
    let spelled = split(text)?;
    let (counter, rest) = spelling.decode(spelled.counter, buffer)?;
    let (chain, rest) = spelling.decode(spelled.chain, rest)?;
    let (signature, _) = spelling.decode(spelled.signature, rest)?;
    let fields = CodeFields {
        counter,
        chain,
        signature,
        ..spelled
    };
    if fields_good(fields) {
        Some(fields)
    } else {
        None
    }
}

// ---- writing

// Writes a '_' and a text at a place; returns the place after them.
fn put_field(s: &[u8], out: &mut [u8], at: usize) -> usize
    requires { at + 1 + length s.now ≤ length out.old }
    ensures { (result ≡ at + 1 + length s.now) × (out.new ≡ overwrite out.old at (separator ∷ s.now)) }
{
    put8(out, at, b'_');
    put(out, at + 1, s)
}

// Writes a '_' and the text of a spelled field at a place; returns the place after them.
fn put_spelled_field(spelling: Spelling, s: &[u8], out: &mut [u8], at: usize) -> usize
    requires { at + 1 + length (spell spelling s.now) ≤ length out.old }
    ensures { let y : _ = spell spelling s.now in
        (result ≡ at + 1 + length y) × (out.new ≡ overwrite out.old at (separator ∷ y)) }
{
    put8(out, at, b'_');
    spelling.encode(s, out, at + 1)
}

// Writes good fields to the start of the output. Output long enough? 23.
fn put_fields(spelling: Spelling, f: CodeFields, out: &mut [u8]) -> Result<usize, Refusal>
    requires { code_fields_good (as_fields f) ≡ true }
    ensures { let y : _ = text_in spelling (as_fields f.entry) in
        (as_answer result ≡ written out.old y) × (out.new ≡ placed out.old 0 y) }
{
    let spelled = spelling.length(f.counter)
        + spelling.length(f.chain)
        + spelling.length(f.signature);
    let length = f.start.len() + f.serial.len() + spelled + 4;
    if out.len() < length {
        return Err(Refusal::OutputShort);
    }
    let at = put(out, 0, f.start);
    let at = put_spelled_field(spelling, f.counter, out, at);
    let at = put_field(f.serial, out, at);
    let at = put_spelled_field(spelling, f.chain, out, at);
    put_spelled_field(spelling, f.signature, out, at);
    Ok(length)
}

// ---- the calls

// Writes the line of a code to the start of the output.
// A code? 24. Twelve fields, counter and chain in canonical BASE64? 26. Output long enough? 23.
pub fn line(code: &[u8], out: &mut [u8]) -> Result<usize, Refusal>
    ensures { (as_answer result ≡ line_answer code.now out.old) × (out.new ≡ line_buffer code.now out.old) }
{
    let mut buffer = [0u8; LONGEST_FIELDS];
    if let Some(fields) = read_fields(Spelling::Base64, code, &mut buffer) {
        return put_fields(Spelling::Base32, fields, out);
    }
    let mut signature = [0u8; 64];
    match read_code(code, &mut signature) {
        Some(_) => Err(Refusal::BadFields),
        None => Err(Refusal::BadCode),
    }
}

// Writes the code of a line to the start of the output. The line of a code? 27. Output long enough? 23.
pub fn unline(line: &[u8], out: &mut [u8]) -> Result<usize, Refusal>
    ensures { (as_answer result ≡ unline_answer line.now out.old) × (out.new ≡ unline_buffer line.now out.old) }
{
    let mut buffer = [0u8; LONGEST_FIELDS];
    match read_fields(Spelling::Base32, line, &mut buffer) {
        Some(fields) => put_fields(Spelling::Base64, fields, out),
        None => Err(Refusal::BadLine),
    }
}
