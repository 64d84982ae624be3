// The strings of a text: where they lie, and their letters, with the escape read.
ghost use Rattle.std.specs.Prelude.{◌≤◌, length};
ghost use Rattle.exports.specs.Places.{PartRead, LettersAt, LetterRead};

use super::lexer::{Found, Part, next};

pub(crate) fn part_at(text: &[u8], at: usize) -> Option<Part>
    requires { at ≤ length text.now }
    ensures { PartRead text.now at result }
{
    match next(text, at) {
        Found::Quoted(part) => Some(part),
        _ => None,
    }
}

// A letter of a string, the escape read, and the place after it.
#[derive(Clone, Copy)]
pub struct Letter {
    pub byte: u8,
    pub next: usize,
}

// The letter at a place; none at the quote.
pub(crate) fn letter_at(text: &[u8], at: usize) -> Option<Letter>
    requires { LettersAt text.now at }
    ensures { LetterRead text.now at result }
{
    let byte = text[at];
    if byte == b'"' {
        return None;
    }
    if byte == b'\\' {
        return Some(Letter {
            byte: b'=',
            next: at + 6,
        });
    }
    Some(Letter { byte, next: at + 1 })
}
