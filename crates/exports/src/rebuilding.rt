// The journal that an export spells, written. Receipts are copied letter by letter from where they lie.
ghost use Rattle.std.specs.Prelude.{◌≡◌, true, List, ◌+◌, ◌≤◌, length, drop};
ghost use Rattle.primitives.specs.Place.{overwrite};
ghost use Rattle.receipt.specs.Settings.{name_text};
ghost use Rattle.journal.specs.Head.{section, entry_text};
ghost use Rattle.journal.specs.Valid.{owner_text};
ghost use Rattle.exports.specs.Lexer.{content};
ghost use Rattle.exports.specs.Shape.{Element, Shape};
ghost use Rattle.exports.specs.Places.{LettersAt};
ghost use Rattle.exports.specs.Output.{Puts, written_out};
ghost use Rattle.exports.specs.Reading.{journal_of_elements};
ghost use Rattle.exports.specs.Running.{owner_settings, owner_in, EntriesWritten, PairWritten, ElementWritten};

use super::naming::settings_or_empty;
use super::output::{Sink, Writer};
use super::shape::{begin_group, element_end, receipts_place};
use super::strings::{letter_at, part_at};
use super::survey::first_named;
use super::walk::{Cursor, begin, follow};
use receipt::{Name, Settings};

// The strings that were written: how many, and the place after them in the text.
#[derive(Clone, Copy)]
pub(crate) struct Entries {
    count: usize,
    next: usize,
}

// Copies the letters of a string from a place on, the escape read, to a place of the output.
// A `while let`: how many letters there are is known only by reading them, so no range or zip says both places.
pub(crate) fn copy_letters(text: &[u8], start: usize, out: &mut [u8], to: usize)
    requires { (LettersAt text.now start) × (to + length (content (drop start text.now) 0) ≤ length out.old) }
    ensures { out.new ≡ overwrite out.old to (content (drop start text.now) 0) }
{
    let mut at = start;
    let mut o = to;
    while let Some(l) = letter_at(text, at) {
        out[o] = l.byte;
        o += 1;
        at = l.next;
    }
}

// The letters of a string, of which there are n.
fn put_letters(w: &mut Writer, text: &[u8], start: usize, n: usize)
    requires letters { LettersAt text.now start }
    requires long { n ≡ length (content (drop start text.now) 0) }
    ensures { Puts true (written_out w.old) (written_out w.new) (content (drop start text.now) 0) }
{
    if let Some(at) = w.advance(n) {
        copy_letters(text, start, w.out, at);
    }
}

// An entry: the length of the string and its letters.
fn put_entry(w: &mut Writer, text: &[u8], start: usize, n: usize)
    requires letters { LettersAt text.now start }
    requires long { n ≡ length (content (drop start text.now) 0) }
    ensures { Puts true (written_out w.old) (written_out w.new) (entry_text (content (drop start text.now) 0)) }
{
    w.put_count(2, n);
    put_letters(w, text, start, n);
}

// The strings of an array as entries.
fn put_entries(w: &mut Writer, text: &[u8], at: usize) -> Option<Entries>
    requires { at ≤ length text.now }
    ensures { EntriesWritten text.now at (written_out w.old) (written_out w.new) result }
{
    let mut count: usize = 0;
    let mut c = begin(text, at);
    while let Cursor::Item(p) = c {
        // a string stands here by the shape
        let s = part_at(text, p)?;
        put_entry(w, text, s.start, s.length);
        count += 1;
        c = follow(text, s.next);
    }
    let next = c.end()?;
    Some(Entries { count, next })
}

// The section of a name.
fn put_name(w: &mut Writer, name: Name)
    ensures { Puts true (written_out w.old) (written_out w.new) (section (name_text name)) }
{
    let text = name.text();
    w.put_count(4, text.len());
    w.put(text);
}

// The pair of the receipts at a place, and the place after them. Its count is written last, since the receipts are counted while they are written.
fn put_pair(w: &mut Writer, text: &[u8], at: usize) -> Option<usize>
    requires { at ≤ length text.now }
    ensures { PairWritten text.now at (written_out w.old) (written_out w.new) result }
{
    put_name(w, settings_or_empty(first_named(text, at)).serial);
    let count_place = w.place;
    let _ = w.advance(4);
    let entries = put_entries(w, text, at)?;
    w.put_count_at(count_place, entries.count);
    Some(entries.next)
}

// The pair of the element at a place, and the place after the element. An element stands there by the shape.
fn put_element(w: &mut Writer, text: &[u8], at: usize) -> Option<usize>
    requires { at ≤ length text.now }
    ensures { ElementWritten text.now at (written_out w.old) (written_out w.new) result }
{
    let receipts = receipts_place(text, at)?;
    let end = put_pair(w, text, receipts)?;
    element_end(text, end)
}

// The sections of CSP and ID.
fn put_owner(w: &mut Writer, owner: Settings)
    ensures { Puts true (written_out w.old) (written_out w.new) (owner_text (owner_in owner)) }
{
    w.put_count(4, 3);
    w.put(&owner.csp);
    put_name(w, owner.id);
}

// The whole journal, from the start of an output on that it fits.
pub(crate) fn put_journal(text: &[u8], owner: Settings, out: &mut [u8])
    ensures { (es : List Element) → Shape text.now es → owner ≡ owner_settings es
        → length (journal_of_elements es) ≤ length out.old → out.new ≡ overwrite out.old 0 (journal_of_elements es) }
{
    let mut w = Writer::new(out);
    put_owner(&mut w, owner);
    let mut c = begin_group(text);
    while let Cursor::Item(p) = c {
        let Some(end) = put_element(&mut w, text, p) else {
            return;
        };
        c = follow(text, end);
    }
}
