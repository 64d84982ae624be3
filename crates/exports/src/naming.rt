// What the first receipt of an element names: CSP, register ID and serial.
ghost use Rattle.std.specs.Prelude.{◌≡◌, ◌==◌, position, MatchOption};
ghost use Rattle.std.proofs.Math.Option.{some};
ghost use Rattle.primitives.specs.Base64.{bytes};
ghost use Rattle.primitives.specs.declared.base64.Alphabet.TheVariants.{UrlSafe};
ghost use Rattle.receipt.specs.Texts.{dot};
ghost use Rattle.receipt.specs.Line.{count_of};
ghost use Rattle.exports.specs.Naming.{named_by, named};
ghost use Rattle.exports.specs.Running.{as_named, SplitAtDot};

use super::payload::Payload;
use receipt::{Name, Settings};

// The settings that were named; empty ones where none were.
pub(crate) fn settings_or_empty(named: Option<Settings>) -> Settings
    ensures { result ≡ (as_named named).settings }
{
    let empty = Name {
        bytes: [0u8; 32],
        len: 0,
    };
    named.unwrap_or(Settings {
        csp: [0u8; 3],
        id: empty,
        serial: empty,
    })
}

// The settings that a payload names; its first field is six bytes long and begins with "R1-", and there are twelve.
pub(crate) fn named_by(payload: Payload) -> Option<Settings>
    ensures { as_named result ≡ named_by (some (bytes UrlSafe payload.entry.letters.now)) }
{
    let first = payload.field(1);
    if payload.len() < 4
        || payload.byte(0) != b'_'
        || first.len != 6
        || !first.bytes.starts_with(b"R1-")
        || payload.count_marks() != 12
    {
        return None;
    }
    let settings = Settings {
        csp: [first.bytes[3], first.bytes[4], first.bytes[5]],
        id: payload.field(2),
        serial: payload.field(11),
    };
    receipt::settings_good(settings).then_some(settings)
}

// The place of the first '.'.
fn first_dot(s: &[u8]) -> Option<usize>
    ensures { result ≡ position (λ b. b == 46) s.now }
{
    s.iter().position(|b| *b == b'.')
}

// What stands before the first '.', and what stands after it.
fn split_at_dot(s: &[u8]) -> Option<(&[u8], &[u8])>
    ensures { MatchOption result (count_of dot s.now ≡ 0) (λ p. SplitAtDot s.now p.0.now p.1.now) }
{
    let at = first_dot(s)?;
    Some((&s[..at], &s[at + 1..]))
}

// What a receipt names that has two '.', and between them a payload in canonical BASE64-URL.
pub(crate) fn names_of(s: &[u8]) -> Option<Settings>
    ensures { as_named result ≡ named s.now }
{
    let (_, rest) = split_at_dot(s)?;
    let (letters, last) = split_at_dot(rest)?;
    if last.contains(&b'.') {
        return None;
    }
    named_by(Payload::new(letters)?)
}
