// Writing an export: the journal taken over, then its receipts and the certificates copied from where they lie.
ghost use Rattle.std.specs.Prelude.{◌≡◌, ℕ, List, ◌++◌};
ghost use Rattle.exports.specs.Output.{Puts};
ghost use Rattle.exports.specs.Writing.{comma, quoted, in_base64, as_exported, exported, export_buffer};
ghost use Rattle.exports.specs.Running.{FourRead, SectionRead, StringsPut, SigningPut, GroupPut, PairPut, ElementsPut, ExportPut};

use super::certificates::{groups_there, sized_end};
use super::output::{Measure, Sink, Writer, moved, refused};
use journal::RefusedAt;
use primitives::Refusal;

// How the strings of a list are written: as they are, or in BASE64.
pub(crate) trait Spelling {
    ghost spelled: { List ℕ → List ℕ };

    fn put<S: Sink>(sink: &mut S, text: &[u8])
        ensures { Puts S.writes (S.view sink.old) (S.view sink.new) (spelled text.now) };
}

pub(crate) enum AsIs {}

impl Spelling for AsIs {
    ghost spelled = { λ w. w };

    fn put<S: Sink>(sink: &mut S, text: &[u8]) {
        sink.put(text);
    }
}

pub(crate) enum InBase64 {}

impl Spelling for InBase64 {
    ghost spelled = { in_base64 };

    fn put<S: Sink>(sink: &mut S, text: &[u8]) {
        sink.put_base64(text);
    }
}

// A ',' where other items went before. `more` is what the text depends on, and chooses no step.
fn put_comma<S: Sink>(sink: &mut S, more: bool)
    ensures { Puts S.writes (S.view sink.old) (S.view sink.new) (comma more) }
{
    if more {
        sink.put(b",");
    }
}

// A string, after a ',' where others went before.
fn put_string<T: Spelling, S: Sink>(sink: &mut S, more: bool, text: &[u8])
    ensures { Puts S.writes (S.view sink.old) (S.view sink.new) (comma more ++ quoted (T.spelled text.now)) }
{
    put_comma(sink, more);
    sink.put(b"\"");
    T::put(sink, text);
    sink.put(b"\"");
}

// So many strings from a place on, and the place after them.
fn put_strings<T: Spelling, S: Sink>(
    sink: &mut S,
    from: &[u8],
    at: usize,
    count: usize,
) -> Option<usize>
    ensures { StringsPut S.writes T.spelled from.now at count (S.view sink.old) (S.view sink.new) result }
{
    let mut place = at;
    for i in 0..count {
        let end = sized_end(from, place)?;
        put_string::<T, S>(sink, 0 < i, &from[place + 2..end]);
        place = end;
    }
    Some(place)
}

// The signing certificate of the group at a place: `{"Signaturzertifikat":` and the certificate.
fn put_signing<S: Sink>(sink: &mut S, more: bool, groups: &[u8], at: usize) -> Option<usize>
    ensures { SigningPut S.writes more groups.now at (S.view sink.old) (S.view sink.new) result }
{
    let end = sized_end(groups, at)?;
    put_comma(sink, more);
    sink.put(b"{\"Signaturzertifikat\":");
    put_string::<InBase64, S>(sink, false, &groups[at + 2..end]);
    Some(end)
}

// An element up to its receipts, from the group at a place.
fn put_group<S: Sink>(sink: &mut S, more: bool, groups: &[u8], at: usize) -> Option<usize>
    ensures { GroupPut S.writes more groups.now at (S.view sink.old) (S.view sink.new) result }
{
    let count = *groups.get(at)? as usize;
    if count == 0 {
        return None;
    }
    let issuers = put_signing(sink, more, groups, at + 1)?;
    sink.put(b",\"Zertifizierungsstellen\":[");
    let end = put_strings::<InBase64, S>(sink, groups, issuers, count - 1)?;
    sink.put(b"],\"Belege-kompakt\":[");
    Some(end)
}

// The number in the four bytes at a place, if they are all there.
fn four_at(j: &[u8], at: usize) -> Option<usize>
    ensures { FourRead j.now at result }
{
    let n = receipt::number_at(j, at, 4)?;
    Some(n as usize)
}

// The place after the section at a place, if it is all there.
fn section_end(j: &[u8], at: usize) -> Option<usize>
    ensures { SectionRead j.now at result }
{
    let n = four_at(j, at)?;
    moved(j.len(), Some(at + 4), n)
}

// The receipts of the pair at a place, and the end of the element.
fn put_pair<S: Sink>(sink: &mut S, j: &[u8], at: usize) -> Option<usize>
    ensures { PairPut S.writes j.now at (S.view sink.old) (S.view sink.new) result }
{
    let serial_end = section_end(j, at)?;
    let count = four_at(j, serial_end)?;
    let end = put_strings::<AsIs, S>(sink, j, serial_end + 4, count)?;
    sink.put(b"]}");
    Some(end)
}

// k elements, from the pairs of a journal and as many groups.
fn put_elements<S: Sink>(sink: &mut S, j: &[u8], at: usize, groups: &[u8], k: usize) -> Option<()>
    ensures { ElementsPut S.writes j.now at groups.now k (S.view sink.old) (S.view sink.new) result }
{
    let mut pair = at;
    let mut group = 0;
    for i in 0..k {
        group = put_group(sink, 0 < i, groups, group)?;
        pair = put_pair(sink, j, pair)?;
    }
    Some(())
}

// The whole text of a journal that was taken over, with a group of certificates for each of its k pairs. Only another journal, or other groups, give None.
fn put_export<S: Sink>(sink: &mut S, j: &[u8], groups: &[u8], k: usize) -> Option<()>
    ensures { ExportPut S.writes j.now groups.now k (S.view sink.old) (S.view sink.new) }
{
    let pairs = section_end(j, 7)?;
    sink.put(b"{\"Belege-Gruppe\":[");
    put_elements(sink, j, pairs, groups, k)?;
    sink.put(b"]}");
    Some(())
}

// Takes a journal over and writes it with its certificates as an export; answers the length of the text. Questions of Take over, with its index; then 28 and 23.
pub fn export(
    j: &[u8],
    key: [u8; 32],
    n: usize,
    groups: &[u8],
    out: &mut [u8],
) -> Result<usize, RefusedAt>
    ensures { (as_exported result ≡ exported j.now key n groups.now out.old)
        × (out.new ≡ export_buffer j.now key n groups.now out.old) }
{
    let state = journal::take_over(j, key, n)?;
    let k = journal::used_count(state.serials);
    if !groups_there(groups, k) {
        return Err(refused(Refusal::BadExport));
    }
    let mut measure = Measure::new(out.len());
    let _ = put_export(&mut measure, j, groups, k);
    let Some(length) = measure.end() else {
        return Err(refused(Refusal::OutputShort));
    };
    let mut writer = Writer::new(out);
    let _ = put_export(&mut writer, j, groups, k);
    Ok(length)
}
