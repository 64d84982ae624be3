// Issuing a receipt: its entry, appended to the journal.
ghost use Rattle.std.specs.Prelude.{◌≡◌, ◌+◌, true, cond, [], length};
ghost use Rattle.primitives.specs.Refusals.{answer_number};
ghost use Rattle.primitives.specs.Questions.{ask};
ghost use Rattle.primitives.specs.Place.{room, placed};
ghost use Rattle.receipt.specs.Compact.{compact, spellable};
ghost use Rattle.journal.specs.Head.{entry_text};
ghost use Rattle.journal.specs.Step.{sound, details_number};
ghost use Rattle.journal.specs.Issuing.{signature_sized, given_signature, issued, issue_buffer};
ghost use Rattle.journal.specs.State.{as_issued, settings_now};

use super::head::put_count;
use super::state::{State, settings_now};
use super::step::{ask_details, fields_of, next, sound};
use primitives::Refusal;
use receipt::{Details, Entry, Signature};

// Questions 6 to 11.
#[tactic(auto, unfolding(primitives::specs::Questions::ask))]
fn ask_issue(st: State, d: Details, room: usize) -> Result<(), Refusal>
    ensures { answer_number result ≡ ask (sound st room) 6 (details_number st d 0) }
{
    if !sound(st, room) {
        return Err(Refusal::BadState);
    }
    ask_details(st, d)
}

// Question 12: 64 bytes, or none for a failed device.
#[tactic(auto, unfolding(crate::specs::Issuing::given_signature, crate::specs::Issuing::signature_sized))]
fn given_signature(signature: &[u8]) -> Result<Signature, Refusal>
    ensures { result ≡ cond (signature_sized signature.now) (Ok (given_signature signature.now)) (Err Refusal.BadSignature) }
{
    let mut bytes = [0; 64];
    match signature.len() {
        0 => Ok(Signature {
            failed: true,
            bytes,
        }),
        64 => {
            bytes.copy_from_slice(signature);
            Ok(Signature {
                failed: false,
                bytes,
            })
        }
        _ => Err(Refusal::BadSignature),
    }
}

// Writes the entry, a length and the compact form, after the journal; returns the place after it. Writes nothing if there is no room.
fn put_entry(st: State, e: Entry, buf: &mut [u8]) -> Option<usize>
    requires { spellable (settings_now st) st.width e ≡ true }
    ensures { let text : _ = entry_text (compact (settings_now st) st.width e) in
        (result ≡ cond (room buf.old st.length text) (Some (st.length + length text)) None) × (buf.new ≡ placed buf.old st.length text) }
{
    if !receipt::has_room(buf.len(), st.length, 2) {
        return None;
    }
    let start = st.length + 2;
    // Writers give the place after what they wrote (`place_after`): the same place if there is no room.
    let end = receipt::put_compact(settings_now(st), st.width, e, buf, start);
    if end == start {
        return None;
    }
    let _ = receipt::put_number(buf, st.length, 2, (end - start) as u64);
    Some(end)
}

// Appends a receipt to the journal in the buffer and rewrites the count of the open section; a refused call changes nothing.
pub fn issue(st: State, d: Details, signature: &[u8], buf: &mut [u8]) -> Result<State, Refusal>
    ensures { let given : _ = signature.now in
        (as_issued st result ≡ issued st d given (length buf.old)) × (buf.new ≡ issue_buffer st d given buf.old) }
{
    ask_issue(st, d, buf.len())?;
    let given = given_signature(signature)?;
    let entry = Entry {
        fields: fields_of(st, d),
        signature: given,
    };
    let Some(end) = put_entry(st, entry, buf) else {
        return Err(Refusal::NoRoom);
    };
    let state = next(st, d, &buf[st.length + 2..end]);
    put_count(st.place, st.since + 1, buf);
    Ok(state)
}

// Issues a receipt with a failed device.
pub fn issue_failed(st: State, d: Details, buf: &mut [u8]) -> Result<State, Refusal>
    ensures { (as_issued st result ≡ issued st d [] (length buf.old)) × (buf.new ≡ issue_buffer st d [] buf.old) }
{
    issue(st, d, &[], buf)
}
