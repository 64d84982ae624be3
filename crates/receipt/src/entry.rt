// A receipt as a journal's entry spells it: its compact form, written and read.
ghost use Rattle.std.specs.Prelude.{◌≡◌, cond};
ghost use Rattle.std.proofs.Math.Option.{none, some};
ghost use Rattle.primitives.specs.Place.{placed, place_after};
ghost use Rattle.receipt.specs.Settings.{sized};
ghost use Rattle.receipt.specs.Payload.{payload};
ghost use Rattle.receipt.specs.Form.{parts, signed_form};
ghost use Rattle.receipt.specs.FormReading.{as_maybe};
ghost use Rattle.receipt.specs.Compact.{signature_text, signature_zero, preparable, prepared, spelled, signature_of, spells, as_found, read_entry};

use super::form::{LONGEST_PAYLOAD, Parts, failure_text, put_form, put_signed_input, read_form};
use super::payload::{PayloadFields, fields_good, put_payload, read_payload};
use super::settings::{Letters, Settings, every};
use primitives::width_good;

// If the device has failed, the bytes are zero. A flag and no enum: `put_compact` also answers for other bytes beside a failed device, and writes nothing.
#[derive(Clone, Copy)]
pub struct Signature {
    pub failed: bool,
    pub bytes: [u8; 64],
}

#[derive(Clone, Copy)]
pub struct Entry {
    pub fields: PayloadFields,
    pub signature: Signature,
}

// ---- the payload

// Both names end within their arrays.
#[tactic(auto, unfolding(crate::specs::Settings::sized))]
fn sized(s: Settings) -> bool
    ensures { result ≡ sized s }
{
    s.id.len <= 32 && s.serial.len <= 32
}

// These fields can be spelled as a payload. Settings, width and fields stay three arguments, as `put_compact` and `put_signing_input` take them.
#[tactic(auto, unfolding(crate::specs::Compact::preparable_within))]
fn preparable(s: Settings, n: usize, f: PayloadFields) -> bool
    ensures { result ≡ preparable s n f }
{
    sized(s) && width_good(n) && fields_good(n, f)
}

// Writes the payload to the start of a buffer, and lends it; none if the fields have no payload.
fn write_payload<'a>(
    s: Settings,
    n: usize,
    f: PayloadFields,
    buffer: &'a mut [u8; LONGEST_PAYLOAD],
) -> Option<&'a [u8]>
    ensures { as_maybe (λ x. x.now) result ≡ cond (preparable s n f) (some (payload s n f)) none }
{
    if !preparable(s, n, f) {
        return None;
    }
    let m = put_payload(buffer, 0, s, n, f);
    Some(&buffer[..m])
}

// ---- writing

// If the device has failed, all bytes are zero.
#[tactic(auto, unfolding(crate::specs::Compact::signature_zero))]
fn signature_zero(g: Signature) -> bool
    ensures { result ≡ signature_zero g }
{
    !g.failed || every(Letters::Zero, &g.bytes)
}

// Writes the compact form of a payload and its signature at a place; returns the place after it.
fn put_signed(payload: &[u8], g: Signature, out: &mut [u8], at: usize) -> usize
    ensures { let y : _ = signed_form (parts payload.now (signature_text g)) in
        (result ≡ place_after out.old at y) × (out.new ≡ placed out.old at y) }
{
    let text = failure_text();
    let signature: &[u8] = if g.failed { &text } else { &g.bytes };
    put_form(Parts { payload, signature }, out, at)
}

// Writes the compact form of an entry at a place; nothing if the entry cannot be spelled or there is no room.
pub fn put_compact(s: Settings, n: usize, e: Entry, out: &mut [u8], at: usize) -> usize
    ensures { (result ≡ place_after out.old at (spelled s n e)) × (out.new ≡ placed out.old at (spelled s n e)) }
{
    let mut buffer = [0u8; LONGEST_PAYLOAD];
    let Some(payload) = write_payload(s, n, e.fields, &mut buffer) else {
        return at;
    };
    if !signature_zero(e.signature) {
        return at;
    }
    put_signed(payload, e.signature, out, at)
}

// Writes the compact form up to its second '.', without it.
pub fn put_signing_input(
    s: Settings,
    n: usize,
    f: PayloadFields,
    out: &mut [u8],
    at: usize,
) -> usize
    ensures { (result ≡ place_after out.old at (prepared s n f)) × (out.new ≡ placed out.old at (prepared s n f)) }
{
    let mut buffer = [0u8; LONGEST_PAYLOAD];
    match write_payload(s, n, f, &mut buffer) {
        Some(payload) => put_signed_input(payload, out, at),
        None => at,
    }
}

// ---- reading

// The fields have a payload, and it is this text.
fn spells(s: Settings, n: usize, f: PayloadFields, text: &[u8]) -> bool
    ensures { result ≡ spells s n f text.now }
{
    let mut buffer = [0u8; LONGEST_PAYLOAD];
    match write_payload(s, n, f, &mut buffer) {
        Some(payload) => payload == text,
        None => false,
    }
}

// The signature with this text.
#[tactic(auto, unfolding(crate::specs::Compact::signature_of))]
fn signature_of(text: &[u8]) -> Signature
    ensures { result ≡ signature_of text.now }
{
    match <[u8; 64]>::try_from(text) {
        Ok(bytes) => Signature {
            failed: false,
            bytes,
        },
        Err(_) => Signature {
            failed: true,
            bytes: [0u8; 64],
        },
    }
}

// Question 16: what the bytes of one entry spell under these settings and this width.
pub fn read_entry(s: Settings, n: usize, text: &[u8]) -> Option<Entry>
    ensures { as_found result ≡ read_entry s n text.now }
{
    let mut payload = [0u8; LONGEST_PAYLOAD];
    let mut signature = [0u8; 64];
    let parts = read_form(text, &mut payload, &mut signature)?;
    let fields = read_payload(s, n, parts.payload)?;
    if !spells(s, n, fields, parts.payload) {
        return None;
    }
    Some(Entry {
        fields,
        signature: signature_of(parts.signature),
    })
}
