// What the calls tell a caller in C: the number that they return, and what they write beside it.
ghost use Rattle.std.specs.Prelude.{◌≡◌, Result};
ghost use Rattle.primitives.specs.Answers.{as_answer};
ghost use Rattle.journal.specs.State.{as_issued};
ghost use Rattle.device.specs.Layout.{kept};
ghost use Rattle.device.specs.Answers.{without_index, index_in};

use super::layout::keep;
use journal::{RefusedAt, State};
use primitives::{Refusal, answer_number};

// Writes the length of what was written, 0 if the call is refused, and returns the number.
pub(crate) fn tell(answer: Result<usize, Refusal>, length: &mut usize) -> u32
    ensures { (result ≡ (as_answer answer).number) × (length.new ≡ (as_answer answer).length) }
{
    *length = answer.unwrap_or(0);
    answer_number(&answer)
}

// Writes the state after the call, which is the one before it if the call is refused, and returns the number.
pub(crate) fn keep_after(answer: Result<State, Refusal>, before: State, state: &mut [u8]) -> u32
    ensures { (result ≡ (as_issued before answer).number) × (state.new ≡ kept state.old (as_issued before answer).state) }
{
    keep(answer.unwrap_or(before), state);
    answer_number(&answer)
}

// Writes the index of the place that is refused, 0 if none is, and leaves the rest of the answer.
pub(crate) fn tell_index<T>(answer: Result<T, RefusedAt>, index: &mut u32) -> Result<T, Refusal>
    ensures { (result ≡ without_index answer) × (index.new ≡ index_in answer) }
{
    match answer {
        Ok(x) => {
            *index = 0;
            Ok(x)
        }
        Err(refused) => {
            *index = refused.index;
            Err(refused.question)
        }
    }
}
