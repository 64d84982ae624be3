// The questions 28, 29, 28 and 23 of an export, asked of all its elements in one pass.
ghost use Rattle.std.specs.Prelude.{◌≡◌, true, ◌&&◌, List, ◌++◌, ℕ, ◌≤◌, length, Some, IfOk};
ghost use Rattle.primitives.specs.Answers.{as_answer};
ghost use Rattle.primitives.specs.Refusals.{answer_number};
ghost use Rattle.exports.specs.Output.{Inside};
ghost use Rattle.exports.specs.Text.{Token, every};
ghost use Rattle.exports.specs.Shape.{Element, Shape, strings};
ghost use Rattle.exports.specs.Places.{from, Placed};
ghost use Rattle.exports.specs.Spelled.{some_of};
ghost use Rattle.exports.specs.Naming.{named};
ghost use Rattle.exports.specs.Reading.{canonical, first_of};
ghost use Rattle.exports.specs.Passing.{measured, asked, surveyed, unasked, survey_answer, SurveyedAs};
ghost use Rattle.exports.specs.Running.{as_named, PlacesInside, owner_settings};

use super::certificates::{certificate_good, issuers_good};
use super::naming::{names_of, settings_or_empty};
use super::output::moved;
use super::shape::{Places, begin_group, element, receipts_place};
use super::strings::part_at;
use super::walk::{Cursor, begin, follow};
use primitives::Refusal;
use receipt::Settings;

// Of all elements so far: each is good, each has a receipt, and the first receipt of each names the register; and the place after their pairs in an output.
// Four answers and no Option: a question is asked of all elements before the next one counts, so each goes on where another is "no".
#[derive(Clone, Copy)]
pub(crate) struct Survey {
    pub(crate) good: bool,
    pub(crate) some: bool,
    pub(crate) named: bool,
    pub(crate) end: Option<usize>,
}

// Of the receipts of an element: none is over 65,535 bytes long, and their count fits four bytes; and the place after their entries in an output.
// Two answers and no Option: where the one is "no", the other still counts in `measured`.
#[derive(Clone, Copy)]
pub(crate) struct Measured {
    pub(crate) good: bool,
    pub(crate) end: Option<usize>,
}

// Checks the lengths and the count of the receipts in the array at a place, and adds up their entries from the place p on.
pub(crate) fn measure_receipts(text: &[u8], at: usize, room: usize, p: Option<usize>) -> Measured
    requires text { at ≤ length text.now }
    requires place { Inside room p }
    ensures { (ws : List (List ℕ)) (rest : List Token) → from text.now at ≡ strings ws ++ rest → result ≡ measured room p ws }
{
    let mut short = true;
    let mut count: usize = 0;
    let mut end = p;
    let mut c = begin(text, at);
    while let Cursor::Item(p) = c {
        let Some(s) = part_at(text, p) else {
            return Measured { good: false, end };
        };
        short = short && s.length <= 65535;
        end = moved(room, moved(room, end, 2), s.length);
        count += 1;
        c = follow(text, s.next);
    }
    Measured {
        good: short && count <= 4294967295,
        end,
    }
}

// What the first string of an array names, as a receipt.
pub(crate) fn first_named(text: &[u8], at: usize) -> Option<Settings>
    requires { at ≤ length text.now }
    ensures { (ws : List (List ℕ)) (rest : List Token) → from text.now at ≡ strings ws ++ rest → as_named result ≡ named (first_of ws) }
{
    let Cursor::Item(p) = begin(text, at) else {
        return None;
    };
    let s = part_at(text, p)?;
    names_of(&text[s.start..s.next - 1])
}

// An array has a string.
pub(crate) fn some_string(text: &[u8], at: usize) -> bool
    requires { at ≤ length text.now }
    ensures { (ws : List (List ℕ)) (rest : List Token) → from text.now at ≡ strings ws ++ rest → result ≡ some_of ws }
{
    matches!(begin(text, at), Cursor::Item(_))
}

// The certificates of an element are in canonical BASE64.
pub(crate) fn certificates_good(text: &[u8], e: Places) -> bool
    requires { PlacesInside text.now e }
    ensures { (x : Element) → Placed text.now e x → result ≡ (canonical x.certificate && every canonical x.issuers) }
{
    certificate_good(text, e.certificate) && issuers_good(text, e.issuers)
}

// The survey with one element more. Its pair takes eight bytes for the length of the serial and the count, the serial, and the entries.
fn survey_element(s: Survey, text: &[u8], e: Places, room: usize) -> Survey
    requires { PlacesInside text.now e }
    ensures { (x : Element) → Placed text.now e x → result ≡ asked room s x }
{
    let some = some_string(text, e.receipts);
    let named = first_named(text, e.receipts);
    let serial = settings_or_empty(named).serial;
    let p = moved(room, moved(room, s.end, 8), serial.len);
    let m = measure_receipts(text, e.receipts, room, p);
    let good = certificates_good(text, e) && m.good;
    Survey {
        good: s.good && good,
        some: s.some && some,
        named: s.named && named.is_some(),
        end: m.end,
    }
}

// The survey of all elements of a text, from a place of the output on.
fn survey_elements(text: &[u8], room: usize, p: Option<usize>) -> Survey
    requires { Inside room p }
    ensures { (es : List Element) → Shape text.now es → result ≡ surveyed room (unasked p) es }
{
    let mut s = Survey {
        good: true,
        some: true,
        named: true,
        end: p,
    };
    let mut c = begin_group(text);
    while let Cursor::Item(p) = c {
        let Some(e) = element(text, p) else {
            return s;
        };
        s = survey_element(s, text, e, room);
        c = follow(text, e.next);
    }
    s
}

// What the first receipt of the first element names; empty settings if it names none. Nothing after it is read.
pub(crate) fn owner_settings(text: &[u8]) -> Settings
    ensures { (es : List Element) → Shape text.now es → result ≡ owner_settings es }
{
    let Cursor::Item(p) = begin_group(text) else {
        return settings_or_empty(None);
    };
    match receipts_place(text, p) {
        Some(at) => settings_or_empty(first_named(text, at)),
        None => settings_or_empty(None),
    }
}

// A text has an element.
pub(crate) fn some_element(text: &[u8]) -> bool
    ensures { (es : List Element) → Shape text.now es → result ≡ some_of es }
{
    matches!(begin_group(text), Cursor::Item(_))
}

// The answers of a survey in the order of the questions: 28, 29, 28 and 23. 28 comes first where there is no element. Otherwise the place is answered.
// `some` is an answer like those of the survey, not a choice of a step.
fn survey_answer(some: bool, s: Survey) -> Result<usize, Refusal>
    ensures number { answer_number result ≡ survey_answer some s }
    ensures end { IfOk result (λ n. s.end ≡ Some n) }
{
    let good = some && s.good;
    if !good {
        return Err(Refusal::BadExport); // the text
    }
    if !s.some {
        return Err(Refusal::NoReceipts);
    }
    if !s.named {
        return Err(Refusal::BadExport); // the first receipts
    }
    let Some(length) = s.end else {
        return Err(Refusal::OutputShort);
    };
    Ok(length)
}

// The length of the journal, if no question is answered no; `owner` is what the first receipt of the text names. The head takes eleven bytes for the CSP with its length and for the length of the ID, and then the ID.
pub(crate) fn survey_text(text: &[u8], owner: Settings, room: usize) -> Result<usize, Refusal>
    ensures { (es : List Element) → Shape text.now es → owner ≡ owner_settings es → SurveyedAs room es (as_answer result) }
{
    let p = moved(room, moved(room, Some(0), 11), owner.id.len);
    survey_answer(some_element(text), survey_elements(text, room, p))
}
