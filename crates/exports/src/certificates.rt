// Certificates: in canonical BASE64 in the strings of an export, and as groups in a lent buffer.
ghost use Rattle.std.specs.Prelude.{◌≡◌, true, ◌↔◌, List, ◌++◌, ℕ, ◌≤◌, length, drop};
ghost use Rattle.exports.specs.Text.{Token, every};
ghost use Rattle.exports.specs.Lexer.{content};
ghost use Rattle.exports.specs.Shape.{string, strings};
ghost use Rattle.exports.specs.Places.{from, LettersAt};
ghost use Rattle.exports.specs.Reading.{canonical};
ghost use Rattle.exports.specs.Passing.{QuadRead, SizedRead, GroupRead, GroupsThere};

use super::output::moved;
use super::strings::{letter_at, part_at};
use super::walk::{Cursor, begin, follow};
use primitives::{Alphabet, DecodeError};

// ---- in strings

// Four letters of a string, the escape read, and the place after them; fewer where the string ends. An array and a count, since the library allocates nothing.
#[derive(Clone, Copy)]
pub(crate) struct Quad {
    pub(crate) count: usize,
    pub(crate) bytes: [u8; 4],
    pub(crate) next: usize,
}

pub(crate) fn quad_at(text: &[u8], at: usize) -> Quad
    requires { LettersAt text.now at }
    ensures { QuadRead text.now at result }
{
    let mut bytes = [0u8; 4];
    let mut next = at;
    for i in 0..4 {
        let Some(l) = letter_at(text, next) else {
            return Quad {
                count: i,
                bytes,
                next,
            };
        };
        bytes[i] = l.byte;
        next = l.next;
    }
    Quad {
        count: 4,
        bytes,
        next,
    }
}

// Four letters are canonical BASE64 by themselves.
pub(crate) fn quad_good(bytes: [u8; 4]) -> bool
    ensures { result ≡ canonical bytes }
{
    let mut three = [0u8; 3];
    primitives::base64_decode(Alphabet::Standard, &bytes, &mut three, 0)
        != Err(DecodeError::Refused)
}

// The string whose letters begin at a place is canonical BASE64. Padding stands in its last four letters.
// A `while`: each turn holds four letters and reads the next four, which may be fewer; an iterator over them needs the same states, and an impl.
pub(crate) fn canonical_at(text: &[u8], start: usize) -> bool
    requires { LettersAt text.now start }
    ensures { result ≡ canonical (content (drop start text.now) 0) }
{
    let mut at = start;
    let mut q = quad_at(text, at);
    while q.count == 4 {
        let bytes = q.bytes;
        if !quad_good(bytes) {
            return false;
        }
        let next = q.next;
        q = quad_at(text, next);
        if bytes[3] == b'=' {
            return q.count == 0;
        }
        at = next;
    }
    q.count == 0
}

// The string at a place is canonical BASE64.
pub(crate) fn certificate_good(text: &[u8], at: usize) -> bool
    requires { at ≤ length text.now }
    ensures { (w : List ℕ) (rest : List Token) → from text.now at ≡ string w ++ rest → result ≡ canonical w }
{
    match part_at(text, at) {
        Some(s) => canonical_at(text, s.start),
        None => false,
    }
}

// Every string of an array is canonical BASE64.
pub(crate) fn issuers_good(text: &[u8], at: usize) -> bool
    requires { at ≤ length text.now }
    ensures { (ws : List (List ℕ)) (rest : List Token) → from text.now at ≡ strings ws ++ rest → result ≡ every canonical ws }
{
    let mut c = begin(text, at);
    while let Cursor::Item(p) = c {
        let Some(s) = part_at(text, p) else {
            return false;
        };
        if !canonical_at(text, s.start) {
            return false;
        }
        c = follow(text, s.next);
    }
    true
}

// ---- in a buffer of groups

// The place after the text at a place, which stands after its length in two bytes, if it is all there.
pub(crate) fn sized_end(s: &[u8], at: usize) -> Option<usize>
    ensures { SizedRead s.now at result }
{
    let n = receipt::number_at(s, at, 2)?;
    moved(s.len(), Some(at + 2), n as usize)
}

// The place after the group at a place, if there is one.
pub(crate) fn group_end(s: &[u8], at: usize) -> Option<usize>
    ensures { GroupRead s.now at result }
{
    let count = *s.get(at)?;
    if count == 0 {
        return None;
    }
    let mut p = at + 1;
    for _ in 0..count {
        p = sized_end(s, p)?;
    }
    Some(p)
}

// The buffer is exactly k groups.
pub(crate) fn groups_there(s: &[u8], k: usize) -> bool
    ensures { (result ≡ true) ↔ GroupsThere k s.now }
{
    let mut p: usize = 0;
    for _ in 0..k {
        let Some(e) = group_end(s, p) else {
            return false;
        };
        p = e;
    }
    p == s.len()
}
