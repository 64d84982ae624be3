// The machine-readable code, the optical line, and calls for tests: SHA-256, BASE64 and BASE32.
ghost use Rattle.std.specs.Prelude.{◌≡◌};
ghost use Rattle.primitives.specs.Answers.{as_answer};
ghost use Rattle.receipt.specs.Code.{code_answer, code_buffer, uncode_answer, uncode_buffer, id_place};
ghost use Rattle.receipt.specs.Line.{line_answer, line_buffer, unline_answer, unline_buffer};
ghost use Rattle.device.specs.Texts.{written_number, decoded_length, decoded_number, fields_number, fields_length, hash_number, hash_buffer, alphabet_of, encode_answer, encode_buffer, decode_answer, decode_buffer, encode_answer32, encode_buffer32, decode_answer32, decode_buffer32};

use super::answers::tell;
use primitives::{Alphabet, DecodeError, Refusal};

// ---- the machine-readable code

// Writes the code of a compact form. Questions 22 and 23.
#[unsafe(no_mangle)]
pub extern "C" fn ditgrux_code(form: &[u8], output: &mut [u8], length: &mut usize) -> u32
    ensures { (result ≡ (code_answer form.now output.old).number)
        × (output.new ≡ code_buffer form.now output.old)
        × (length.new ≡ (code_answer form.now output.old).length) }
{
    tell(receipt::code(form, output), length)
}

// Writes the compact form of a code. Questions 24 and 23.
#[unsafe(no_mangle)]
pub extern "C" fn ditgrux_uncode(code: &[u8], output: &mut [u8], length: &mut usize) -> u32
    ensures { (result ≡ (uncode_answer code.now output.old).number)
        × (output.new ≡ uncode_buffer code.now output.old)
        × (length.new ≡ (uncode_answer code.now output.old).length) }
{
    tell(receipt::uncode(code, output), length)
}

// Where in a code the register ID stands, and its length. Question 24.
#[unsafe(no_mangle)]
pub extern "C" fn ditgrux_fields(code: &[u8], start: &mut usize, length: &mut usize) -> u32
    ensures { (result ≡ fields_number code.now)
        × (start.new ≡ (id_place code.now).start)
        × (length.new ≡ fields_length code.now) }
{
    let place = receipt::id_place(code);
    *start = place.start;
    *length = place.end - place.start;
    if place.start == place.end {
        return Refusal::BadCode.number();
    }
    0
}

// ---- the optical line

// Writes the optical line of a code. Questions 24, 26 and 23.
#[unsafe(no_mangle)]
pub extern "C" fn ditgrux_line(code: &[u8], output: &mut [u8], length: &mut usize) -> u32
    ensures { (result ≡ (line_answer code.now output.old).number)
        × (output.new ≡ line_buffer code.now output.old)
        × (length.new ≡ (line_answer code.now output.old).length) }
{
    tell(receipt::line(code, output), length)
}

// Writes the code of an optical line. Questions 27 and 23.
#[unsafe(no_mangle)]
pub extern "C" fn ditgrux_unline(line: &[u8], output: &mut [u8], length: &mut usize) -> u32
    ensures { (result ≡ (unline_answer line.now output.old).number)
        × (output.new ≡ unline_buffer line.now output.old)
        × (length.new ≡ (unline_answer line.now output.old).length) }
{
    tell(receipt::unline(line, output), length)
}

// ---- for tests

// Writes the SHA-256 value. 23 if the output is shorter than 32 bytes.
#[unsafe(no_mangle)]
pub extern "C" fn ditgrux_sha256(data: &[u8], output: &mut [u8]) -> u32
    ensures { (result ≡ hash_number output.old) × (output.new ≡ hash_buffer «data».now output.old) }
{
    if output.len() < 32 {
        return Refusal::OutputShort.number();
    }
    let _ = receipt::put(output, 0, &primitives::sha256(data));
    0
}

// 0 means padded BASE64, any other number BASE64-URL: a number, since C asks.
fn alphabet_of(url: u32) -> Alphabet
    ensures { result ≡ alphabet_of url }
{
    if url == 0 {
        Alphabet::Standard
    } else {
        Alphabet::UrlSafe
    }
}

// The answer of a writer that got n bytes and ended at this place: refused if there were bytes and none was written.
fn written(n: usize, end: usize) -> Result<usize, Refusal>
    ensures { ((as_answer result).number ≡ written_number n end) × ((as_answer result).length ≡ end) }
{
    if n != 0 && end == 0 {
        Err(Refusal::OutputShort)
    } else {
        Ok(end)
    }
}

// Writes the text of bytes. 23 if it does not fit.
#[unsafe(no_mangle)]
pub extern "C" fn ditgrux_base64(
    url: u32,
    data: &[u8],
    output: &mut [u8],
    length: &mut usize,
) -> u32
    ensures { (result ≡ (encode_answer url «data».now output.old).number)
        × (output.new ≡ encode_buffer url «data».now output.old)
        × (length.new ≡ (encode_answer url «data».now output.old).length) }
{
    let end = primitives::base64_encode(alphabet_of(url), data, output, 0);
    tell(written(data.len(), end), length)
}

// The answer of a reader.
fn decoded(read: Result<usize, DecodeError>) -> Result<usize, Refusal>
    ensures { ((as_answer result).number ≡ decoded_number read) × ((as_answer result).length ≡ decoded_length read) }
{
    match read {
        Ok(end) => Ok(end),
        Err(DecodeError::Refused) => Err(Refusal::BadForm),
        Err(DecodeError::NoRoom) => Err(Refusal::OutputShort),
    }
}

// Writes the bytes of a text. 22 if the text is not canonical, 23 if its bytes do not fit.
#[unsafe(no_mangle)]
pub extern "C" fn ditgrux_unbase64(
    url: u32,
    text: &[u8],
    output: &mut [u8],
    length: &mut usize,
) -> u32
    ensures { (result ≡ (decode_answer url text.now output.old).number)
        × (output.new ≡ decode_buffer url text.now output.old)
        × (length.new ≡ (decode_answer url text.now output.old).length) }
{
    let read = primitives::base64_decode(alphabet_of(url), text, output, 0);
    tell(decoded(read), length)
}

// Writes the BASE32 of bytes. 23 if it does not fit.
#[unsafe(no_mangle)]
pub extern "C" fn ditgrux_base32(data: &[u8], output: &mut [u8], length: &mut usize) -> u32
    ensures { (result ≡ (encode_answer32 «data».now output.old).number)
        × (output.new ≡ encode_buffer32 «data».now output.old)
        × (length.new ≡ (encode_answer32 «data».now output.old).length) }
{
    let end = primitives::base32_encode(data, output, 0);
    tell(written(data.len(), end), length)
}

// Writes the bytes of a text in BASE32. 22 if the text is not canonical, 23 if its bytes do not fit.
#[unsafe(no_mangle)]
pub extern "C" fn ditgrux_unbase32(text: &[u8], output: &mut [u8], length: &mut usize) -> u32
    ensures { (result ≡ (decode_answer32 text.now output.old).number)
        × (output.new ≡ decode_buffer32 text.now output.old)
        × (length.new ≡ (decode_answer32 text.now output.old).length) }
{
    let read = primitives::base32_decode(text, output, 0);
    tell(decoded(read), length)
}
