// A journal checked in parts: from a state on, so many steps.
ghost use Rattle.std.specs.Prelude.{◌≡◌};
ghost use Rattle.journal.specs.Checking.{as_step};
ghost use Rattle.journal.specs.State.{as_part};
ghost use Rattle.journal.specs.Parts.{ready, part_answer, check_steps};

use super::checking::{answer_after, refused, steps_from};
use super::head::count_at;
use super::state::{RefusedAt, State};
use super::step::sound;
use primitives::Refusal;

// Question 6: the state is sound for the journal as its buffer, and has no more receipts in the open section than the journal's count there.
#[tactic(auto, using(crate::proofs::CheckCalls::sound_step), unfolding(crate::specs::Parts::ready))]
fn ready(st: State, j: &[u8]) -> bool
    ensures { result ≡ ready st j.now }
{
    sound(st, j.len()) && st.since as usize <= count_at(j, st.place, 4)
}

// Goes on from a state through so many steps of Take over, under the key and the width of the state. Asks 6, then what the steps ask. Returns
// the state after them; or the question and the receipts before that place.
#[tactic(auto, using(crate::proofs::PartCalls::ready_steady, crate::proofs::PartSteps::check_six), unfolding(crate::specs::Parts::handed_back))]
pub fn check_steps(st: State, j: &[u8], count: usize) -> Result<State, RefusedAt>
    ensures { as_part st result ≡ check_steps st j.now count }
{
    if !ready(st, j) {
        return Err(refused(Refusal::BadState));
    }
    answer_after(steps_from(st, count, j))
}
