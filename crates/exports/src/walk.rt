// Marks, names and arrays.
#![tactic(auto, unfolding(crate::specs::Text::is_mark))]

ghost use Rattle.std.specs.Prelude.{◌≡◌, true, ◌≤◌, length};
ghost use Rattle.exports.specs.Text.{is_mark};
ghost use Rattle.exports.specs.Lexer.{content};
ghost use Rattle.exports.specs.Shape.{string, strings};
ghost use Rattle.exports.specs.Places.{Reads, Expected, NameRead, Keyed, end_of, Begun, Followed};

use super::lexer::{Found, next, skip_blanks, spells};

// The names of the structure.
#[derive(Clone, Copy, PartialEq, Eq)]
pub enum Name {
    Certificate,
    Issuers,
    Receipts,
    Group,
}

// A name, and the place after its ":".
#[derive(Clone, Copy)]
pub struct Key {
    pub name: Name,
    pub next: usize,
}

// In an array: the place of the next item, or the place after the array; broken where neither stands. Loops go from item to item by `while let`: an iterator
// would hide the place after the array, which its caller goes on from, and whether the array was broken.
#[derive(Clone, Copy)]
pub enum Cursor {
    Item(usize),
    Past(usize),
    Broken,
}

impl Cursor {
    // The place after the array.
    pub(crate) fn end(self) -> Option<usize>
        ensures { result ≡ end_of self }
    {
        match self {
            Cursor::Past(end) => Some(end),
            _ => None,
        }
    }
}

// The place after a mark.
pub(crate) fn expect(text: &[u8], at: usize, b: u8) -> Option<usize>
    requires { (at ≤ length text.now) × (is_mark b ≡ true) }
    ensures { Expected b text.now at result }
{
    let p = skip_blanks(text, at);
    if p < text.len() && text[p] == b {
        return Some(p + 1);
    }
    None
}

// The place after a string.
pub(crate) fn string(text: &[u8], at: usize) -> Option<usize>
    requires { at ≤ length text.now }
    ensures { Reads string text.now at result }
{
    match next(text, at) {
        Found::Quoted(part) => Some(part.next),
        _ => None,
    }
}

// Which of the names the letters of a string spell.
#[tactic(auto, unfolding(crate::specs::Places::bare))]
pub(crate) fn name_of(letters: &[u8]) -> Option<Name>
    ensures { NameRead (content letters.now 0) result }
{
    if spells(letters, b"Signaturzertifikat") {
        return Some(Name::Certificate);
    }
    if spells(letters, b"Zertifizierungsstellen") {
        return Some(Name::Issuers);
    }
    if spells(letters, b"Belege-kompakt") {
        return Some(Name::Receipts);
    }
    if spells(letters, b"Belege-Gruppe") {
        return Some(Name::Group);
    }
    None
}

pub(crate) fn key_at(text: &[u8], at: usize) -> Option<Key>
    requires { at ≤ length text.now }
    ensures { Keyed text.now at result }
{
    let Found::Quoted(part) = next(text, at) else {
        return None;
    };
    let next = expect(text, part.next, b':')?;
    let name = name_of(&text[part.start..])?;
    Some(Key { name, next })
}

// The array at a place.
pub(crate) fn begin(text: &[u8], at: usize) -> Cursor
    requires { at ≤ length text.now }
    ensures { Begun text.now at result }
{
    let Some(p) = expect(text, at, b'[') else {
        return Cursor::Broken;
    };
    match expect(text, p, b']') {
        Some(end) => Cursor::Past(end),
        None => Cursor::Item(p),
    }
}

// What follows an item. Its blanks are skipped once, whichever mark comes after them.
#[tactic(auto, using(crate::proofs::Tokening::mark_after, crate::proofs::Tokening::no_mark_after), unfolding(crate::specs::Text::is_mark))]
pub(crate) fn follow(text: &[u8], at: usize) -> Cursor
    requires { at ≤ length text.now }
    ensures { Followed text.now at result }
{
    let mark = skip_blanks(text, at);
    if let Some(p) = expect(text, mark, b',') {
        return Cursor::Item(p);
    }
    match expect(text, mark, b']') {
        Some(end) => Cursor::Past(end),
        None => Cursor::Broken,
    }
}

// The place after an array of strings. `elements` walks in the same way over its own items; a trait for both, with the items and their grammar as ghost members, is longer than the two loops.
pub(crate) fn strings(text: &[u8], at: usize) -> Option<usize>
    requires { at ≤ length text.now }
    ensures { Reads strings text.now at result }
{
    let mut c = begin(text, at);
    while let Cursor::Item(p) = c {
        c = follow(text, string(text, p)?);
    }
    c.end()
}
