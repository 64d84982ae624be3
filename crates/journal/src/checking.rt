// Taking over a journal: its head, then step by step.
ghost use Rattle.std.specs.Prelude.{◌≡◌, ◌+◌, ◌≤◌, ◌<◌, length};
ghost use Rattle.primitives.specs.Aes.{key_schedule};
ghost use Rattle.primitives.specs.Refusals.{answer_number};
ghost use Rattle.journal.specs.Checking.{counter_right, context_number, full, text_checked, place_checked, start_checked, end_checked, Steady, one_step, steps, last_answer, check_head, take_over, entry_ready, entry_checked, settings_checked, serial_ready, serial_checked, step_checked, as_checked, as_unread, as_step};
ghost use Rattle.journal.specs.State.{as_taken_over};

use super::head::{Head, count_at, head_settings, head_whole, serial_at, start_there, there};
use super::state::{RefusedAt, State, Stop, TakenOver, settings_now, unopened};
use super::step::{ask_renewal, first_good, fresh, new_counter, next, renewed, sound, sound_alone};
use primitives::Refusal;
use receipt::{Entry, Kind, Name, PayloadFields, Settings};

// ---- one entry

// 20: the new counter fits, and on a standard receipt it equals the decrypted one.
#[tactic(auto, using(crate::proofs::CheckCalls::bits_equal, crate::proofs::CheckCalls::counter_no, crate::proofs::CheckCalls::counter_other, crate::proofs::CheckCalls::counter_standard, crate::proofs::CheckCalls::other_kind))]
fn counter_right(schedule: &[[u8; 4]; 60], st: State, f: PayloadFields) -> bool
    ensures { result ≡ counter_right schedule.now st f }
{
    let Some(counter) = new_counter(st, f.details) else {
        return false;
    };
    match f.details.kind {
        Kind::Standard => {
            receipt::decrypt_counter(schedule, st.id, f.details.number, st.width, f.counter)
                == counter
        }
        Kind::Cancellation | Kind::Training => true,
    }
}

// Questions 17 to 20.
fn ask_context(schedule: &[[u8; 4]; 60], st: State, f: PayloadFields) -> Result<(), Refusal>
    ensures { answer_number result ≡ context_number schedule.now st f }
{
    if f.details.number <= st.last {
        return Err(Refusal::EntryNumber);
    }
    if !first_good(st, f.details) {
        return Err(Refusal::EntryNoStart);
    }
    if f.chain != st.chain {
        return Err(Refusal::EntryChain);
    }
    if !counter_right(schedule, st, f) {
        return Err(Refusal::EntryCounter);
    }
    Ok(())
}

// What a step makes of a state: the state after it, and the entry, if it reads one. A step that starts a pair reads none, nor does one that finds the end
// of the journal, which leaves the state as it was.
#[derive(Clone, Copy)]
pub struct Checked {
    pub entry: Option<Entry>,
    pub state: State,
}

// Questions 16 to 20, asked of the bytes of one entry.
fn check_text(schedule: &[[u8; 4]; 60], st: State, text: &[u8]) -> Result<Checked, Refusal>
    requires { (st.issued ≤ st.last) × (st.since ≤ st.issued) × (st.length + 2 + length text.now < 18446744073709551616) }
    ensures { as_checked st result ≡ text_checked schedule.now st text.now }
{
    let Some(entry) = receipt::read_entry(settings_now(st), st.width, text) else {
        return Err(Refusal::EntryMisspelled);
    };
    ask_context(schedule, st, entry.fields)?;
    let state = next(st, entry.fields.details, text);
    Ok(Checked {
        entry: Some(entry),
        state,
    })
}

// ---- one step

// A journal that is read from a state on, under the schedule of a key. What a take-over keeps of its states, so that no step traps, holds of this one.
#[derive(Clone, Copy)]
struct Reader<'a> {
    schedule: &'a [[u8; 4]; 60],
    journal: &'a [u8],
    state: State,
    ghost issued: { state.issued ≤ state.last },
    ghost since: { state.since ≤ state.issued },
    ghost place: { state.place + 4 ≤ length journal.now },
}

impl Reader<'_> {
    // Questions 15 to 20, asked of the entry at the state's place.
    #[tactic(auto, using(crate::proofs::CheckCalls::there_count, crate::proofs::CheckCalls::there_room), unfolding(crate::specs::Checking::place_checked, crate::specs::Checking::entry_number, crate::specs::Checking::text_checked, crate::specs::Checking::checked, crate::specs::Checking::stopped, primitives::specs::Questions::ask, primitives::specs::Questions::ifZero))]
    fn check_place(&self) -> Result<Checked, Refusal>
        ensures { as_checked self.now.state result ≡ place_checked self.now.schedule.now self.now.state self.now.journal.now }
    {
        let at = self.state.length;
        if !there(self.journal, at) {
            return Err(Refusal::EntryCut);
        }
        let start = at + 2;
        let end = start + count_at(self.journal, at, 2);
        check_text(self.schedule, self.state, &self.journal[start..end])
    }

    // The open section has as many entries as its count says.
    #[tactic(auto, unfolding(crate::specs::Checking::full))]
    fn full(&self) -> bool
        ensures { result ≡ full self.now.state self.now.journal.now }
    {
        count_at(self.journal, self.state.place, 4) <= self.state.since as usize
    }

    // Questions 21, 30 and 31, asked of the start of a pair at the state's place.
    #[tactic(auto, using(primitives::proofs::Refusals::numbers_are_not_zero, crate::proofs::Readings::start_section, crate::proofs::CheckCalls::start_fits), unfolding(crate::specs::Checking::start_checked, crate::specs::Checking::start_number, crate::specs::Checking::stopped, primitives::specs::Questions::ask, primitives::specs::Questions::ifZero))]
    fn check_start(&self) -> Result<State, Refusal>
        ensures { as_unread self.now.state result ≡ start_checked self.now.state self.now.journal.now }
    {
        if !start_there(self.journal, self.state.length) {
            return Err(Refusal::BytesLeft);
        }
        let serial = serial_at(self.journal, self.state.length);
        ask_renewal(self.state, serial)?;
        Ok(renewed(self.state, serial))
    }

    // After the last entry of a section: no byte left, or the start of a pair.
    #[tactic(auto, unfolding(crate::specs::Checking::end_checked, crate::specs::Checking::stopped))]
    fn check_end(&self) -> Result<State, Refusal>
        ensures { as_unread self.now.state result ≡ end_checked self.now.state self.now.journal.now }
    {
        if self.journal.len() <= self.state.length {
            return Ok(self.state);
        }
        self.check_start()
    }

    // Checks the next entry if the count says that there is one, else what follows the section.
    #[tactic(auto, unfolding(crate::specs::Checking::one_step))]
    fn take_step(&self) -> Result<Checked, Refusal>
        ensures { as_checked self.now.state result ≡ one_step self.now.schedule.now self.now.state self.now.journal.now }
    {
        if self.full() {
            return self.check_end().map(|state| Checked { entry: None, state });
        }
        self.check_place()
    }
}

// ---- all steps

// Takes n steps from a state on, under its key, up to the first that is refused. Once a step leaves the length as it was, so does every step after it.
#[tactic(auto, using(primitives::proofs::Refusals::numbers_are_not_zero, crate::proofs::CheckCalls::steps_none, crate::proofs::CheckCalls::turn_no, crate::proofs::CheckCalls::turn_stays, crate::proofs::CheckCalls::turn_steady))]
pub(crate) fn steps_from(start: State, n: usize, journal: &[u8]) -> Result<State, Stop>
    requires { Steady start journal.now }
    ensures { as_step result ≡ steps (key_schedule start.key) n start journal.now }
{
    let schedule = &receipt::counter_key(start.key);
    let mut state = start;
    for _ in 0..n {
        let reader = Reader {
            schedule,
            journal,
            state,
        };
        match reader.take_step() {
            Err(question) => return Err(Stop { question, state }),
            Ok(step) => {
                if step.state.length == state.length {
                    return Ok(state);
                }
                state = step.state;
            }
        }
    }
    Ok(state)
}

// ---- the journal

// The answer of Take over after these steps: it counts the receipts before the refused place.
#[tactic(auto, using(primitives::proofs::Refusals::numbers_are_not_zero), unfolding(crate::specs::Checking::last_answer, crate::specs::Checking::accepted, crate::specs::Checking::refused, primitives::specs::Questions::ask, primitives::specs::Questions::ifZero))]
pub fn answer_after(steps: Result<State, Stop>) -> Result<State, RefusedAt>
    ensures { as_taken_over result ≡ last_answer (as_step steps) }
{
    steps.map_err(|stop| RefusedAt {
        question: stop.question,
        index: stop.state.issued,
    })
}

// The number of a refused step and the state before it; or 0 and the state after the last step.
#[derive(Clone, Copy)]
pub struct Step {
    pub number: u32,
    pub state: State,
}

// The same of a run that is told by a number. It stays beside `answer_after`, since it takes every number, also one that no question has.
#[tactic(auto, unfolding(crate::specs::Checking::last_answer, crate::specs::Checking::accepted, crate::specs::Checking::refused, primitives::specs::Questions::ifZero))]
pub fn last_answer(step: Step) -> TakenOver
    ensures { result ≡ last_answer step }
{
    if step.number == 0 {
        return TakenOver {
            number: 0,
            index: 0,
            state: step.state,
        };
    }
    TakenOver {
        number: step.number,
        index: step.state.issued,
        state: unopened(),
    }
}

// A question that is asked before the first receipt.
pub(crate) fn refused(question: Refusal) -> RefusedAt
    ensures { result ≡ record { question = question; index = 0 } }
{
    RefusedAt { question, index: 0 }
}

// The head alone: 4, 14, or the state of a register without receipts, whatever the journal's count says.
#[tactic(auto, using(crate::proofs::Readings::head_no, crate::proofs::Readings::head_is, crate::proofs::Readings::whole_room, crate::proofs::CheckCalls::head_settings_asked), unfolding(crate::specs::Checking::check_head, crate::specs::Checking::head_number, crate::specs::Checking::settings_checked, crate::specs::Checking::refused, primitives::specs::Questions::ask, primitives::specs::Questions::ifZero))]
pub fn check_head(j: &[u8], key: [u8; 32], n: usize) -> Result<State, RefusedAt>
    ensures { as_taken_over result ≡ check_head j.now key n }
{
    if !receipt::width_good(n) {
        return Err(refused(Refusal::BadWidth));
    }
    if !head_whole(j) {
        return Err(refused(Refusal::BadHead));
    }
    check_settings(head_settings(j), key, n)
}

// The state after a journal; or the first question answered no, and the number of receipts before it.
// An entry takes at least two bytes and the start of a pair nine, so as many steps as the journal has bytes cover all of it.
#[tactic(auto, using(primitives::proofs::Refusals::numbers_are_not_zero, crate::proofs::CheckCalls::over_refused, crate::proofs::CheckCalls::over_read))]
pub fn take_over(j: &[u8], key: [u8; 32], n: usize) -> Result<State, RefusedAt>
    ensures { as_taken_over result ≡ take_over j.now key n }
{
    let st = check_head(j, key, n)?;
    answer_after(steps_from(st, j.len(), j))
}

// ---- steps for other readers

// The journal length after the entry fits 64 bits.
#[tactic(auto, using(crate::proofs::Places::length_entry), unfolding(crate::specs::Checking::entry_ready))]
fn entry_ready(st: State, text: &[u8]) -> bool
    ensures { result ≡ entry_ready st text.now }
{
    sound_alone(st) && receipt::has_room(usize::MAX - 2, st.length, text.len())
}

// Reads one entry from its bytes, under the key's schedule. State sound? 6. Then questions 16 to 20.
#[tactic(auto, using(crate::proofs::CheckCalls::ready_true), unfolding(crate::specs::Checking::entry_checked, crate::specs::Checking::stopped))]
pub fn check_entry(schedule: &[[u8; 4]; 60], st: State, text: &[u8]) -> Result<Checked, Refusal>
    ensures { as_checked st result ≡ entry_checked schedule.now st text.now }
{
    if !entry_ready(st, text) {
        return Err(Refusal::BadState);
    }
    check_text(schedule, st, text)
}

// The state of a register without receipts, from its settings: what check_head gives for a head with these settings. Questions 4 and 14.
#[tactic(auto, unfolding(crate::specs::Checking::settings_checked, crate::specs::Checking::refused, crate::specs::Checking::accepted, primitives::specs::Questions::ask, primitives::specs::Questions::ifZero))]
pub fn check_settings(settings: Settings, key: [u8; 32], n: usize) -> Result<State, RefusedAt>
    ensures { as_taken_over result ≡ settings_checked settings key n }
{
    if !receipt::width_good(n) {
        return Err(refused(Refusal::BadWidth));
    }
    let Some(head) = Head::new(settings) else {
        return Err(refused(Refusal::BadHead));
    };
    Ok(fresh(head, n, key))
}

// The journal length after the start of a pair fits 64 bits.
#[tactic(auto, unfolding(crate::specs::Checking::serial_ready))]
fn serial_ready(st: State, serial: Name) -> bool
    ensures { result ≡ serial_ready st serial }
{
    sound_alone(st) && receipt::has_room(usize::MAX - 8, st.length, serial.len)
}

// The start of a pair, from its serial. State sound? 6. Then questions 21, 30 and 31.
#[tactic(auto, using(primitives::proofs::Refusals::numbers_are_not_zero, crate::proofs::CheckCalls::serial_fits), unfolding(crate::specs::Checking::serial_checked, crate::specs::Checking::serial_number, crate::specs::Checking::stopped, primitives::specs::Questions::ask, primitives::specs::Questions::ifZero))]
pub fn check_serial(st: State, serial: Name) -> Result<State, Refusal>
    ensures { as_unread st result ≡ serial_checked st serial }
{
    if !serial_ready(st, serial) {
        return Err(Refusal::BadState);
    }
    if !receipt::serial_good(serial) {
        return Err(Refusal::BytesLeft);
    }
    ask_renewal(st, serial)?;
    Ok(renewed(st, serial))
}

// One step of a take-over, from the state's place in a journal. State sound for this journal? 6. Then questions 15 to 20, or 21, 30 and 31 after
// the last entry of a section.
#[tactic(auto, using(crate::proofs::CheckCalls::sound_step), unfolding(crate::specs::Checking::step_checked, crate::specs::Checking::stopped))]
pub fn check_step(schedule: &[[u8; 4]; 60], st: State, j: &[u8]) -> Result<Checked, Refusal>
    ensures { as_checked st result ≡ step_checked schedule.now st j.now }
{
    if !sound(st, j.len()) {
        return Err(Refusal::BadState);
    }
    let reader = Reader {
        schedule,
        journal: j,
        state: st,
    };
    reader.take_step()
}
