// The payload of a receipt: written from its fields, and read back loosely.
ghost use Rattle.std.specs.Prelude.{◌≡◌, true, ◌+◌, ◌≤◌, [], ◌∷◌, ◌++◌, length, take, drop, MatchOption};
ghost use Rattle.primitives.specs.Place.{overwrite};
ghost use Rattle.receipt.specs.Settings.{zeros};
ghost use Rattle.receipt.specs.Texts.{separator};
ghost use Rattle.receipt.specs.Payload.{base64, register_part, moment, counter_field, closing, body, payload, counter_good, fields_good};
ghost use Rattle.receipt.specs.PayloadReading.{eight, kind_of, read_counter, read_chain, blank, read_fields};

use super::amounts::{amounts_good, put_amounts, read_amounts};
use super::bytes::{put, put_field, put8};
use super::datetime::{DateTime, date_good, put_date, read_date};
use super::decimal::{put_decimal, value_of};
use super::details::{Details, Kind};
use super::form::beginning;
use super::separators::{after, skip};
use super::settings::{Letters, Settings, every};
use primitives::Alphabet;

// What a payload spells. The counter is N bytes, then zeros; eight zeros if the kind is not Standard.
#[derive(Clone, Copy)]
pub struct PayloadFields {
    pub details: Details,
    pub counter: [u8; 8],
    pub chain: [u8; 8],
}

// ---- writing

// Writes BASE64 of a slice at a place; returns the place after it.
fn put_base64(out: &mut [u8], at: usize, src: &[u8]) -> usize
    requires { at + length (base64 src.now) ≤ length out.old }
    ensures { (result ≡ at + length (base64 src.now)) × (out.new ≡ overwrite out.old at (base64 src.now)) }
{
    primitives::base64_encode(Alphabet::Standard, src, out, at)
}

// Writes "_R1-", the CSP, '_', the ID and '_' at a place; returns the place after them.
fn put_register(out: &mut [u8], at: usize, s: Settings) -> usize
    requires { at + length (register_part s) ≤ length out.old }
    ensures { (result ≡ at + length (register_part s)) × (out.new ≡ overwrite out.old at (register_part s)) }
{
    let id = s.id.text();
    put(out, at, &beginning());
    put_field(out, at + 4, &s.csp);
    put_field(out, at + 8, id);
    at + 9 + id.len()
}

// Writes number and date, each followed by a '_', at a place; returns the place after them.
fn put_moment(out: &mut [u8], at: usize, number: u32, date: DateTime) -> usize
    requires { at + length (moment number date) ≤ length out.old }
    ensures { (result ≡ at + length (moment number date)) × (out.new ≡ overwrite out.old at (moment number date)) }
{
    let p = put_decimal(out, at, number as u64);
    put8(out, p, b'_');
    put_date(out, p + 1, date);
    put8(out, p + 20, b'_');
    p + 21
}

// What a counter field spells.
#[tactic(auto, unfolding(crate::specs::Payload::counter_field, crate::specs::Payload::counter_content, crate::specs::Texts::cancellation_text, crate::specs::Texts::training_text))]
fn counter_content<'a>(n: usize, kind: Kind, counter: &'a [u8; 8]) -> &'a [u8]
    ensures { base64 result.now ≡ counter_field n kind counter.now }
{
    match kind {
        Kind::Standard => &counter[..n.min(8)],
        Kind::Cancellation => b"STO",
        Kind::Training => b"TRA",
    }
}

// Writes the counter field and a '_' at a place; returns the place after them.
fn put_counter(out: &mut [u8], at: usize, n: usize, kind: Kind, counter: [u8; 8]) -> usize
    requires { at + length (counter_field n kind counter) + 1 ≤ length out.old }
    ensures { let y : _ = counter_field n kind counter in
        (result ≡ at + length y + 1) × (out.new ≡ overwrite out.old at (y ++ (separator ∷ []))) }
{
    let p = put_base64(out, at, counter_content(n, kind, &counter));
    put8(out, p, b'_');
    p + 1
}

// Writes counter field, '_', serial, '_' and chain field at a place; returns the place after them.
fn put_closing(out: &mut [u8], at: usize, s: Settings, n: usize, f: PayloadFields) -> usize
    requires { at + length (closing s n f) ≤ length out.old }
    ensures { (result ≡ at + length (closing s n f)) × (out.new ≡ overwrite out.old at (closing s n f)) }
{
    let serial = s.serial.text();
    let p = put_counter(out, at, n, f.details.kind, f.counter);
    put_field(out, p, serial);
    put_base64(out, p + serial.len() + 1, &f.chain)
}

// Writes what follows the register part at a place; returns the place after it.
fn put_body(out: &mut [u8], at: usize, s: Settings, n: usize, f: PayloadFields) -> usize
    requires { at + length (body s n f) ≤ length out.old }
    ensures { (result ≡ at + length (body s n f)) × (out.new ≡ overwrite out.old at (body s n f)) }
{
    let p = put_moment(out, at, f.details.number, f.details.date);
    let q = put_amounts(out, p, f.details.amounts);
    put_closing(out, q, s, n, f)
}

// Writes a payload at a place; returns the place after it.
pub(crate) fn put_payload(
    out: &mut [u8],
    at: usize,
    s: Settings,
    n: usize,
    f: PayloadFields,
) -> usize
    requires { at + length (payload s n f) ≤ length out.old }
    ensures { (result ≡ at + length (payload s n f)) × (out.new ≡ overwrite out.old at (payload s n f)) }
{
    let p = put_register(out, at, s);
    put_body(out, p, s, n, f)
}

// ---- which fields a payload may have

// Every byte from a place on is zero.
fn zero_from(b: [u8; 8], at: usize) -> bool
    ensures { result ≡ zeros (drop at b) }
{
    every(Letters::Zero, &b[at.min(8)..])
}

// Every byte of the counter that its field does not spell is zero.
#[tactic(auto, unfolding(crate::specs::Payload::counter_good))]
fn counter_good(n: usize, kind: Kind, counter: [u8; 8]) -> bool
    ensures { result ≡ counter_good n kind counter }
{
    match kind {
        Kind::Standard => zero_from(counter, n),
        Kind::Cancellation | Kind::Training => zero_from(counter, 0),
    }
}

// What a payload's fields must meet: number not 0, good date and time, amounts within limits, no stray byte in the counter.
#[tactic(auto, unfolding(crate::specs::Payload::fields_within))]
pub(crate) fn fields_good(n: usize, f: PayloadFields) -> bool
    ensures { result ≡ fields_good n f }
{
    1 <= f.details.number
        && date_good(f.details.date)
        && amounts_good(f.details.amounts)
        && counter_good(n, f.details.kind, f.counter)
}

// ---- reading

// The kind of a receipt, from its counter field on. Here and below twelve bytes are asked for: the slice stays one, since the field's end is not known before it is read.
#[tactic(auto, unfolding(crate::specs::PayloadReading::kind_of))]
fn kind_of(text: &[u8]) -> Kind
    requires { 12 ≤ length text.now }
    ensures { result ≡ kind_of text.now }
{
    if text[4] != b'_' {
        Kind::Standard
    } else if text[0] == b'U' {
        Kind::Cancellation
    } else {
        Kind::Training
    }
}

// The bytes of a BASE64 text, then zeros.
#[tactic(auto, unfolding(crate::specs::PayloadReading::eight))]
fn eight(text: &[u8]) -> [u8; 8]
    ensures { result ≡ eight text.now }
{
    let mut b = [0u8; 8];
    let _ = primitives::base64_decode(Alphabet::Standard, text, &mut b, 0);
    b
}

// The bytes of the counter of a receipt, from its counter field on.
#[tactic(auto, unfolding(crate::specs::PayloadReading::read_counter, crate::specs::PayloadReading::field_width))]
fn read_counter(text: &[u8], n: usize, kind: Kind) -> [u8; 8]
    requires { 12 ≤ length text.now }
    ensures { result ≡ read_counter n kind text.now }
{
    match kind {
        Kind::Standard => eight(&text[..if n <= 6 { 8 } else { 12 }]),
        Kind::Cancellation | Kind::Training => [0u8; 8],
    }
}

// The bytes of the chain field, which is the last twelve bytes of the text.
#[tactic(auto, unfolding(crate::specs::PayloadReading::read_chain))]
fn read_chain(text: &[u8]) -> [u8; 8]
    requires { 12 ≤ length text.now }
    ensures { result ≡ read_chain text.now }
{
    eight(&text[text.len() - 12..])
}

// The fields of a payload's bytes, read loosely: whether they spell these bytes is decided by spelling them again.
// None if the text is too short to be read.
pub(crate) fn read_payload(s: Settings, n: usize, text: &[u8]) -> Option<PayloadFields>
    ensures { MatchOption result (read_fields s n text.now ≡ blank) (λ f. f ≡ read_fields s n text.now) }
{
    if text.len() < 9 || text.len() - 9 < s.id.len {
        return None;
    }
    let number = &text[9 + s.id.len..];
    let date = after(number);
    let amounts = after(date);
    let counter = skip(amounts, 5);
    if date.len() < 19 || counter.len() < 12 {
        return None;
    }
    let kind = kind_of(counter);
    Some(PayloadFields {
        details: Details {
            number: (value_of(number) % 4294967296) as u32,
            date: read_date(date),
            amounts: read_amounts(amounts),
            kind,
        },
        counter: read_counter(counter, n, kind),
        chain: read_chain(text),
    })
}
