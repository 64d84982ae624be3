// Tokens of a text, from a place on.
// The text and the place are two arguments and not one value: as a value each contract would say besides that what is answered lies in the same text.
ghost use Rattle.std.specs.Prelude.{◌≡◌, true, ◌≤◌, length, drop};
ghost use Rattle.std.specs.List.{prefix_len};
ghost use Rattle.primitives.specs.Bytes.{same};
ghost use Rattle.exports.specs.Text.{blank, is_mark, plain};
ghost use Rattle.exports.specs.Lexer.{content};
ghost use Rattle.exports.specs.Places.{Skipped, Stopped, EscapeAt, Closed, Next, bare};

// A string where it lies: its letters begin at `start`, and `length` is how many bytes it spells; `next` is the place after its quote.
#[derive(Clone, Copy)]
pub struct Part {
    pub start: usize,
    pub length: usize,
    pub next: usize,
}

// What stands at a place: the end of the text, a wrong byte, a string, or a mark and the place after it.
#[derive(Clone, Copy)]
pub enum Found {
    End,
    Wrong,
    Quoted(Part),
    Mark(u8, usize),
}

#[tactic(auto, unfolding(crate::specs::Text::blank))]
pub(crate) fn is_blank(b: u8) -> bool
    ensures { result ≡ blank b }
{
    matches!(b, b' ' | b'\t' | b'\n' | b'\r')
}

#[tactic(auto, unfolding(crate::specs::Text::is_mark))]
pub(crate) fn is_mark(b: u8) -> bool
    ensures { result ≡ is_mark b }
{
    matches!(b, b'{' | b'}' | b'[' | b']' | b':' | b',')
}

#[tactic(auto, unfolding(crate::specs::Text::plain))]
pub(crate) fn is_plain(b: u8) -> bool
    ensures { result ≡ plain b }
{
    matches!(b, b' '..=b'~') && b != b'"' && b != b'\\'
}

// How many blanks a text begins with.
fn blanks(text: &[u8]) -> usize
    ensures { result ≡ prefix_len blank text.now }
{
    text.iter().take_while(|b| is_blank(**b)).count()
}

pub(crate) fn skip_blanks(text: &[u8], at: usize) -> usize
    requires { at ≤ length text.now }
    ensures { Skipped text.now at result }
{
    at + blanks(&text[at..])
}

// How many plain bytes a text begins with.
fn plain_bytes(text: &[u8]) -> usize
    ensures { result ≡ prefix_len plain text.now }
{
    text.iter().take_while(|b| is_plain(**b)).count()
}

// The first place from `start` on that holds no plain byte; the text's length if there is none.
pub(crate) fn plain_end(text: &[u8], start: usize) -> usize
    requires { start ≤ length text.now }
    ensures { Stopped text.now start result }
{
    start + plain_bytes(&text[start..])
}

// The escape stands at a place.
pub(crate) fn escape_at(text: &[u8], at: usize) -> bool
    requires { at ≤ length text.now }
    ensures { EscapeAt text.now at result }
{
    text[at..].starts_with(b"\\u003d")
}

// The string whose letters begin at `start`; none if it is wrong or not closed. A `while`: it goes from escape to escape, of which nobody knows how many there are.
pub(crate) fn string_at(text: &[u8], start: usize) -> Option<Part>
    requires { start ≤ length text.now }
    ensures { Closed text.now start result }
{
    let mut end = plain_end(text, start);
    let mut length = end - start;
    while escape_at(text, end) {
        let after = end + 6;
        end = plain_end(text, after);
        length += 1 + (end - after);
    }
    if end < text.len() && text[end] == b'"' {
        return Some(Part {
            start,
            length,
            next: end + 1,
        });
    }
    None
}

pub(crate) fn next(text: &[u8], at: usize) -> Found
    requires { at ≤ length text.now }
    ensures { Next text.now at result }
{
    let p = skip_blanks(text, at);
    if p == text.len() {
        return Found::End;
    }
    let b = text[p];
    if b == b'"' {
        match string_at(text, p + 1) {
            Some(part) => Found::Quoted(part),
            None => Found::Wrong,
        }
    } else if is_mark(b) {
        Found::Mark(b, p + 1)
    } else {
        Found::Wrong
    }
}

// Letters, up to the quote, spell a name.
pub(crate) fn spells(letters: &[u8], name: &[u8]) -> bool
    requires { bare name.now ≡ true }
    ensures { result ≡ same (content letters.now 0) name.now }
{
    letters.starts_with(name) && (letters.len() == name.len() || letters[name.len()] == b'"')
}
