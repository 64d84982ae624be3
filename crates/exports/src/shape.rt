// Members, elements and the whole text.
#![tactic(auto, unfolding(crate::specs::Text::is_mark))]

ghost use Rattle.std.specs.Prelude.{◌≡◌, true, ◌↔◌, ◌≤◌, length};
ghost use Rattle.exports.specs.Text.{is_mark};
ghost use Rattle.exports.specs.Shape.{array, written, document, Shaped};
ghost use Rattle.exports.specs.Places.{Reads, ValueRead, MemberKeyed, MemberRead, place_of, places_of, ElementRead, ReceiptsFound, ElementEnded, GroupPlace, GroupBegun};

use super::lexer::{Found, next};
use super::walk::{Cursor, Key, Name, begin, expect, follow, key_at, string, strings};

// A member: its name, the place of its value and the place after it.
#[derive(Clone, Copy)]
pub struct Value {
    pub name: Name,
    pub place: usize,
    pub next: usize,
}

// The places of an element's three values, and the place after it.
#[derive(Clone, Copy)]
pub struct Places {
    pub certificate: usize,
    pub issuers: usize,
    pub receipts: usize,
    pub next: usize,
}

// The place after the value that belongs to a name.
pub(crate) fn value_end(text: &[u8], name: Name, at: usize) -> Option<usize>
    requires { at ≤ length text.now }
    ensures { ValueRead name text.now at result }
{
    match name {
        Name::Certificate => string(text, at),
        _ => strings(text, at),
    }
}

// A mark and the name of a member: its name, and the place of its value.
pub(crate) fn member_key(text: &[u8], at: usize, lead: u8) -> Option<Key>
    requires { (at ≤ length text.now) × (is_mark lead ≡ true) }
    ensures { MemberKeyed text.now at lead result }
{
    let key = key_at(text, expect(text, at, lead)?)?;
    if key.name == Name::Group {
        return None;
    }
    Some(key)
}

// A mark and a member.
pub(crate) fn member(text: &[u8], at: usize, lead: u8) -> Option<Value>
    requires { (at ≤ length text.now) × (is_mark lead ≡ true) }
    ensures { MemberRead text.now at lead result }
{
    let key = member_key(text, at, lead)?;
    let next = value_end(text, key.name, key.next)?;
    Some(Value {
        name: key.name,
        place: key.next,
        next,
    })
}

// The place of the value of the member with a name.
pub(crate) fn place_of(name: Name, a: Value, b: Value, c: Value) -> Option<usize>
    ensures { result ≡ place_of name a b c }
{
    [a, b, c].iter().find(|v| v.name == name).map(|v| v.place)
}

// The three places, if all were found; they stand before `next`.
pub(crate) fn all_places(a: Value, b: Value, c: Value, next: usize) -> Option<Places>
    ensures { result ≡ places_of a b c next }
{
    Some(Places {
        certificate: place_of(Name::Certificate, a, b, c)?,
        issuers: place_of(Name::Issuers, a, b, c)?,
        receipts: place_of(Name::Receipts, a, b, c)?,
        next,
    })
}

pub(crate) fn element(text: &[u8], at: usize) -> Option<Places>
    requires { at ≤ length text.now }
    ensures { ElementRead text.now at result }
{
    let a = member(text, at, b'{')?;
    let b = member(text, a.next, b',')?;
    let c = member(text, b.next, b',')?;
    let next = expect(text, c.next, b'}')?;
    all_places(a, b, c, next)
}

// The place of the receipts of the element at a place. Only the members before them are read. The callers know that an element stands there.
// A `while`, here and below: it goes from member to member, as they are read.
pub(crate) fn receipts_place(text: &[u8], at: usize) -> Option<usize>
    requires { at ≤ length text.now }
    ensures { ReceiptsFound text.now at result }
{
    let mut key = member_key(text, at, b'{')?;
    while key.name != Name::Receipts {
        let end = value_end(text, key.name, key.next)?;
        key = member_key(text, end, b',')?;
    }
    Some(key.next)
}

// The place after the element whose receipts end at a place. Only the members after them are read. The callers know that receipts end there.
pub(crate) fn element_end(text: &[u8], at: usize) -> Option<usize>
    requires { at ≤ length text.now }
    ensures { ElementEnded text.now at result }
{
    let mut p = at;
    while let Some(m) = member(text, p, b',') {
        p = m.next;
    }
    expect(text, p, b'}')
}

// The place after an array of elements.
pub(crate) fn elements(text: &[u8], at: usize) -> Option<usize>
    requires { at ≤ length text.now }
    ensures { Reads (array written) text.now at result }
{
    let mut c = begin(text, at);
    while let Cursor::Item(p) = c {
        c = follow(text, element(text, p)?.next);
    }
    c.end()
}

// The place of the array of elements.
pub(crate) fn group_place(text: &[u8]) -> Option<usize>
    ensures { GroupPlace text.now result }
{
    let key = key_at(text, expect(text, 0, b'{')?)?;
    if key.name == Name::Group {
        return Some(key.next);
    }
    None
}

// The array of elements.
pub(crate) fn begin_group(text: &[u8]) -> Cursor
    ensures { GroupBegun text.now result }
{
    match group_place(text) {
        Some(p) => begin(text, p),
        None => Cursor::Broken,
    }
}

// The place after the tokens of some elements.
pub(crate) fn document_end(text: &[u8]) -> Option<usize>
    ensures { Reads document text.now 0 result }
{
    let end = elements(text, group_place(text)?)?;
    expect(text, end, b'}')
}

// The text spells some elements.
pub(crate) fn has_shape(text: &[u8]) -> bool
    ensures { (result ≡ true) ↔ Shaped text.now }
{
    match document_end(text) {
        Some(end) => matches!(next(text, end), Found::End),
        None => false,
    }
}
