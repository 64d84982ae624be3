// A journal checked in parts: its head, and then so many steps a call.
ghost use Rattle.std.specs.Prelude.{◌≡◌, length};
ghost use Rattle.device.specs.Layout.{kept};
ghost use Rattle.device.specs.Calls.{head_answer, steps_answer};

use super::answers::{keep_after, tell_index};
use super::layout::{STATE, state_of};
use super::register::{array_of, width_with};
use primitives::Refusal;

// Checks the head of a journal and writes the state of a register without receipts. 6 if the state is not 447 bytes long, then questions 4 and 14.
#[unsafe(no_mangle)]
pub extern "C" fn ditgrux_check_head(
    journal: &[u8],
    key: &[u8],
    width: usize,
    state: &mut [u8],
) -> u32
    ensures { (result ≡ (head_answer journal.now key.now width (length state.old)).number)
        × (state.new ≡ kept state.old (head_answer journal.now key.now width (length state.old)).state) }
{
    if state.len() != STATE {
        return Refusal::BadState.number();
    }
    let checked = journal::check_head(journal, array_of(key), width_with(key, width));
    // The head has no index.
    keep_after(tell_index(checked, &mut 0), journal::unopened(), state)
}

// Goes on from the state through so many steps and writes the state after them. Questions 6, 15 to 21, 30 and 31.
#[unsafe(no_mangle)]
pub extern "C" fn ditgrux_check_steps(
    state: &mut [u8],
    journal: &[u8],
    steps: usize,
    index: &mut u32,
) -> u32
    ensures { (result ≡ (steps_answer state.old journal.now steps).number)
        × (state.new ≡ kept state.old (steps_answer state.old journal.now steps).state)
        × (index.new ≡ (steps_answer state.old journal.now steps).index) }
{
    let st = state_of(state);
    let checked = journal::check_steps(st, journal, steps);
    keep_after(tell_index(checked, index), st, state)
}
