// Reading an export: the questions of the text, the journal that it spells taken over, and only then the journal written.
ghost use Rattle.std.specs.Prelude.{◌≡◌, length};
ghost use Rattle.exports.specs.Reading.{as_restored, restored, restored_buffer};

use super::output::refused;
use super::rebuilding::put_journal;
use super::retaking::retake;
use super::shape::has_shape;
use super::survey::{owner_settings, survey_text};
use journal::{RefusedAt, State};
use primitives::Refusal;

// The length of a journal, and the state after it.
#[derive(Clone, Copy)]
pub struct Restored {
    pub length: usize,
    pub state: State,
}

// Reads an export and writes the journal that it spells. Questions 28, 29, 28 and 23, each of all elements, and then those of Take over, with its index.
pub fn read_export(
    text: &[u8],
    key: [u8; 32],
    n: usize,
    out: &mut [u8],
) -> Result<Restored, RefusedAt>
    ensures { (as_restored result ≡ restored text.now key n (length out.old))
        × (out.new ≡ restored_buffer text.now key n out.old) }
{
    if !has_shape(text) {
        return Err(refused(Refusal::BadExport));
    }
    let owner = owner_settings(text);
    let length = match survey_text(text, owner, out.len()) {
        Ok(length) => length,
        Err(question) => return Err(refused(question)),
    };
    let state = retake(text, owner, key, n)?;
    put_journal(text, owner, out);
    Ok(Restored { length, state })
}
