// Preparing a receipt: the text that the device signs before it is issued.
ghost use Rattle.std.specs.Prelude.{◌≡◌, length};
ghost use Rattle.primitives.specs.Answers.{as_answer};
ghost use Rattle.primitives.specs.Refusals.{answer_number};
ghost use Rattle.primitives.specs.Questions.{ask};
ghost use Rattle.journal.specs.Step.{sound_alone, details_number};
ghost use Rattle.journal.specs.Preparing.{prepare_answer, prepare_buffer};

use super::state::{State, settings_now};
use super::step::{ask_details, fields_of, sound_alone};
use primitives::Refusal;
use receipt::Details;

// Questions 6 to 11, without a buffer.
#[tactic(auto, unfolding(primitives::specs::Questions::ask))]
fn ask_prepare(st: State, d: Details) -> Result<(), Refusal>
    ensures { answer_number result ≡ ask (sound_alone st) 6 (details_number st d 0) }
{
    if !sound_alone(st) {
        return Err(Refusal::BadState);
    }
    ask_details(st, d)
}

// Writes what the device signs to the start of the output: the compact form up to its second '.', without it. Returns its length.
pub fn prepare(st: State, d: Details, out: &mut [u8]) -> Result<usize, Refusal>
    ensures { (as_answer result ≡ prepare_answer st d (length out.old)) × (out.new ≡ prepare_buffer st d out.old) }
{
    ask_prepare(st, d)?;
    let settings = settings_now(st);
    let fields = fields_of(st, d);
    // Writers give the place after what they wrote (`place_after`): 0 if there is no room.
    let length = receipt::put_signing_input(settings, st.width, fields, out, 0);
    if length == 0 {
        return Err(Refusal::NoRoom);
    }
    Ok(length)
}
