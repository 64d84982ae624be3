// The journal that an export spells, taken over where its receipts lie: it is not written for that.
ghost use Rattle.std.specs.Prelude.{◌≡◌, List, ◌≤◌, length};
ghost use Rattle.journal.specs.State.{as_taken_over};
ghost use Rattle.journal.specs.Checking.{as_unread, as_step};
ghost use Rattle.exports.specs.Shape.{Element, Shape};
ghost use Rattle.exports.specs.Running.{TextsRan, PairStarted, elements_run, owner_settings, run_journal};

use super::naming::settings_or_empty;
use super::shape::{begin_group, element_end, receipts_place};
use super::strings::part_at;
use super::survey::first_named;
use super::walk::{Cursor, begin, follow};
use journal::{RefusedAt, State, Stop};
use primitives::Refusal;
use receipt::Settings;

// The state after the receipts of an array, and the place after the array, if all of it was read.
#[derive(Clone, Copy)]
pub(crate) struct Ran {
    state: State,
    next: Option<usize>,
}

// The strings of an array, each as an entry, up to the first that is refused.
fn run_texts(schedule: &[[u8; 4]; 60], start: State, text: &[u8], at: usize) -> Result<Ran, Stop>
    requires { at ≤ length text.now }
    ensures { TextsRan schedule.now start text.now at result }
{
    let mut state = start;
    let mut c = begin(text, at);
    while let Cursor::Item(p) = c {
        // a string stands here by the shape
        let Some(part) = part_at(text, p) else {
            return Ok(Ran { state, next: None });
        };
        let end = part.start + part.length;
        match journal::check_entry(schedule, state, &text[part.start..end]) {
            Ok(checked) => state = checked.state,
            Err(question) => return Err(Stop { question, state }),
        }
        c = follow(text, part.next);
    }
    Ok(Ran {
        state,
        next: c.end(),
    })
}

// The serial that the first of the receipts at a place names, as the start of a pair.
fn start_pair(state: State, text: &[u8], at: usize) -> Result<State, Refusal>
    requires { at ≤ length text.now }
    ensures { PairStarted state text.now at (as_unread state result) }
{
    journal::check_serial(state, settings_or_empty(first_named(text, at)).serial)
}

// All elements, up to the first step that is refused: the serial, except in the first element, whose serial is in the head; then the receipts.
fn run_pairs(schedule: &[[u8; 4]; 60], start: State, text: &[u8]) -> Result<State, Stop>
    ensures { (es : List Element) → Shape text.now es → as_step result ≡ elements_run schedule.now start es }
{
    let mut state = start;
    let mut later = false;
    let mut c = begin_group(text);
    while let Cursor::Item(p) = c {
        // an element stands here by the shape
        let Some(at) = receipts_place(text, p) else {
            return Ok(state);
        };
        if later {
            match start_pair(state, text, at) {
                Ok(started) => state = started,
                Err(question) => return Err(Stop { question, state }),
            }
        }
        let ran = run_texts(schedule, state, text, at)?;
        state = ran.state;
        later = true;
        let Some(next) = ran.next else {
            return Ok(state);
        };
        let Some(end) = element_end(text, next) else {
            return Ok(state);
        };
        c = follow(text, end);
    }
    Ok(state)
}

// The state after the journal that a text spells, where `owner` is what its first receipt names; or the first question answered no, and the number of receipts before it.
pub(crate) fn retake(
    text: &[u8],
    owner: Settings,
    key: [u8; 32],
    n: usize,
) -> Result<State, RefusedAt>
    ensures { (es : List Element) → Shape text.now es → owner ≡ owner_settings es → as_taken_over result ≡ run_journal es key n }
{
    let first = journal::check_settings(owner, key, n)?;
    let schedule = receipt::counter_key(key);
    journal::answer_after(run_pairs(&schedule, first, text))
}
