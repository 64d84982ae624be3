// The compact form of a receipt, as payload and signature: the elements of header, payload and signature, with '.' between them.
ghost use Rattle.std.specs.Prelude.{◌≡◌, ◌+◌, ◌<◌, ◌≤◌, ◌≢◌, ℕ, length, drop, get_or, MatchOption};
ghost use Rattle.std.proofs.Math.Option.{some};
ghost use Rattle.primitives.specs.Place.{overwrite, placed, place_after};
ghost use Rattle.primitives.specs.Base64.{decoding};
ghost use Rattle.receipt.specs.Texts.{beginning};
ghost use Rattle.receipt.specs.Form.{failure_text, first_element, element, part, second_dot, payload_good, signature_good, good_parts, signed_input, signed_form, parts_of_form};
ghost use Rattle.receipt.specs.FormReading.{as_maybe, fitting, as_parts};

use primitives::{Alphabet, base64_decode, base64_encode, base64_length, has_room, put};

// The longest payload.
pub(crate) const LONGEST_PAYLOAD: usize = 200;

// The longest compact form, for a caller's buffer: 20 letters, '.', those of the longest payload, '.', 86 letters.
pub const LONGEST_COMPACT: usize = 20 + 1 + (LONGEST_PAYLOAD * 4 + 2) / 3 + 1 + 86;

// ---- fixed texts

// The first bytes of every payload.
pub(crate) fn beginning() -> [u8; 4]
    ensures { result ≡ beginning }
{
    *b"_R1-"
}

// What stands for the signature if the device has failed.
pub(crate) fn failure_text() -> [u8; 34]
    ensures { result ≡ failure_text }
{
    *b"Sicherheitseinrichtung ausgefallen"
}

// The element of the header, with its '.'.
fn first_element() -> [u8; 21]
    ensures { result ≡ first_element }
{
    *b"eyJhbGciOiJFUzI1NiJ9."
}

// ---- reading

// Payload and signature of a receipt.
#[derive(Clone, Copy)]
pub(crate) struct Parts<'a> {
    pub(crate) payload: &'a [u8],
    pub(crate) signature: &'a [u8],
}

impl<'a> Parts<'a> {
    // These parts, if both are good.
    pub(crate) fn good(self) -> Option<Parts<'a>>
        ensures { as_maybe as_parts result ≡ good_parts (some self.entry.payload.now) (some self.entry.signature.now) }
    {
        if payload_good(self.payload) && signature_good(self.signature) {
            Some(self)
        } else {
            None
        }
    }
}

// The place of the first b from a place on.
pub(crate) fn next_at(b: u8, s: &[u8], from: usize) -> Option<usize>
    ensures { MatchOption result ((k : ℕ) → from ≤ k → k < length s.now → get_or s.now k 0 ≢ b)
        (λ i. (from ≤ i) × (i < length s.now) × (get_or s.now i 0 ≡ b) × ((k : ℕ) → from ≤ k → k < i → get_or s.now k 0 ≢ b)) }
{
    (from..s.len()).find(|i| s[*i] == b)
}

pub(crate) fn payload_good(payload: &[u8]) -> bool
    ensures { result ≡ payload_good payload.now }
{
    payload.len() <= LONGEST_PAYLOAD && payload.starts_with(&beginning())
}

pub(crate) fn signature_good(signature: &[u8]) -> bool
    ensures { result ≡ signature_good signature.now }
{
    signature.len() == 64 || signature == failure_text().as_slice()
}

// Writes the bytes of a text to the start of a buffer, and lends them; none if the text is refused or there is no room.
pub(crate) fn decode<'a>(alphabet: Alphabet, text: &[u8], buffer: &'a mut [u8]) -> Option<&'a [u8]>
    ensures { as_maybe (λ x. x.now) result ≡ fitting (length buffer.old) (decoding alphabet text.now) }
{
    let n = base64_decode(alphabet, text, buffer, 0).ok()?;
    Some(&buffer[..n])
}

// The second and the third element of a compact form: what stands before and after the next '.', if the first is the fixed one.
fn elements<'a>(form: &'a [u8]) -> Option<(&'a [u8], &'a [u8])>
    ensures { MatchOption result (length form.now ≤ second_dot form.now) (λ e. (second_dot form.now < length form.now)
        × (e.0.now ≡ part 21 (second_dot form.now) form.now) × (e.1.now ≡ drop (second_dot form.now + 1) form.now)) }
{
    if !form.starts_with(&first_element()) {
        return None;
    }
    let dot = next_at(b'.', form, 21)?;
    Some((&form[21..dot], &form[dot + 1..]))
}

// Reads the parts of a compact form, each to the start of a buffer.
pub(crate) fn read_form<'a>(
    form: &[u8],
    payload: &'a mut [u8; LONGEST_PAYLOAD],
    signature: &'a mut [u8; 64],
) -> Option<Parts<'a>>
    ensures { as_maybe as_parts result ≡ parts_of_form form.now }
{
    let (second, third) = elements(form)?;
    let payload = decode(Alphabet::UrlSafe, second, payload)?;
    let signature = decode(Alphabet::UrlSafe, third, signature)?;
    Parts { payload, signature }.good()
}

// ---- writing

// Writes a '.' and an element at a place; returns the place after them.
fn put_element(out: &mut [u8], at: usize, s: &[u8]) -> usize
    requires { at + length (element s.now) ≤ length out.old }
    ensures { (result ≡ at + length (element s.now)) × (out.new ≡ overwrite out.old at (element s.now)) }
{
    put(out, at, b".");
    base64_encode(Alphabet::UrlSafe, s, out, at + 1)
}

// Writes what is signed of a compact form at a place: the elements of header and payload with the '.' between them; returns the place after them.
pub(crate) fn put_signed_input(payload: &[u8], out: &mut [u8], at: usize) -> usize
    ensures { let y : _ = signed_input payload.now in
        (result ≡ place_after out.old at y) × (out.new ≡ placed out.old at y) }
{
    let second = base64_length(Alphabet::UrlSafe, payload);
    if !has_room(out.len(), at, 21 + second) {
        return at;
    }
    put(out, at, &first_element());
    base64_encode(Alphabet::UrlSafe, payload, out, at + 21)
}

// Writes a compact form at a place; returns the place after it.
pub(crate) fn put_form(parts: Parts, out: &mut [u8], at: usize) -> usize
    requires { length parts.signature.now ≤ 64 }
    ensures { let y : _ = signed_form (as_parts parts.entry) in
        (result ≡ place_after out.old at y) × (out.new ≡ placed out.old at y) }
{
    let second = base64_length(Alphabet::UrlSafe, parts.payload);
    let third = base64_length(Alphabet::UrlSafe, parts.signature);
    if !has_room(out.len(), at, 22 + second + third) {
        return at;
    }
    let p = put_signed_input(parts.payload, out, at);
    put_element(out, p, parts.signature)
}
