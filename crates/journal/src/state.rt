// The state of a register, its serials, and the answers of the calls that carry a state.
ghost use Rattle.std.specs.Prelude.{◌≡◌, ◌<◌, length};
ghost use Rattle.journal.specs.State.{unopened, used, newest, all_good, all_empty, serials_good, added, settings_now, settings_first};

use primitives::Refusal;
use receipt::{Name, Settings};

// What a register keeps between calls. Its journal is its buffer up to the length.
#[derive(Clone, Copy)]
pub struct State {
    pub csp: [u8; 3],
    pub id: Name,
    // those used, the newest last, then zeros
    pub serials: [Name; 8],
    pub width: usize,
    pub key: [u8; 32],
    pub counter: i64,
    pub last: u32,
    pub issued: u32,
    pub chain: [u8; 8],
    pub length: usize,
    // the receipts in the open section, and the place of its count
    pub since: u32,
    pub place: usize,
}

// What a list of receipts comes to: why one is refused, if one is, and the number of receipts issued, all of them before it.
#[derive(Clone, Copy)]
pub struct IssuedList {
    pub refused: Option<Refusal>,
    pub count: usize,
    pub state: State,
}

// Why a check is refused: the question answered no, and the number of receipts before the refused place.
#[derive(Clone, Copy, PartialEq, Eq)]
pub struct RefusedAt {
    pub question: Refusal,
    pub index: u32,
}

// What a check comes to, told by a number: 0 and the state, or the question answered no, the number of receipts before the refused place and the
// unopened state. Only `last_answer` gives it.
#[derive(Clone, Copy)]
pub struct TakenOver {
    pub number: u32,
    pub index: u32,
    pub state: State,
}

// Where a run of steps stops: the question answered no, and the state before the refused step.
#[derive(Clone, Copy)]
pub struct Stop {
    pub question: Refusal,
    pub state: State,
}

// The name that is all zero.
pub(crate) const NO_NAME: Name = Name {
    bytes: [0; 32],
    len: 0,
};

// The unopened state, which is all zero.
#[tactic(auto, unfolding(crate::specs::State::unopened))]
pub fn unopened() -> State
    ensures { result ≡ unopened }
{
    State {
        csp: [0; 3],
        id: NO_NAME,
        serials: [NO_NAME; 8],
        width: 0,
        key: [0; 32],
        counter: 0,
        last: 0,
        issued: 0,
        chain: [0; 8],
        length: 0,
        since: 0,
        place: 0,
    }
}

// ---- serials

// Those used, before the first empty one.
pub(crate) fn used(slots: &[Name; 8]) -> &[Name]
    ensures { result.now ≡ used slots.now }
{
    let k = slots.iter().position(|n| n.len == 0).unwrap_or(8);
    &slots[..k]
}

// How many are used.
pub fn used_count(slots: [Name; 8]) -> usize
    ensures { result ≡ length (used slots) }
{
    used(&slots).len()
}

// The newest; the empty name if none is used.
fn newest(slots: &[Name; 8]) -> Name
    ensures { result ≡ newest slots.now }
{
    used(slots).last().copied().unwrap_or(NO_NAME)
}

fn all_good(names: &[Name]) -> bool
    ensures { result ≡ all_good names.now }
{
    names.iter().all(|n| receipt::serial_good(*n))
}

fn all_empty(names: &[Name]) -> bool
    ensures { result ≡ all_empty names.now }
{
    names.iter().all(|n| *n == NO_NAME)
}

// One to eight good serials, and zeros after them.
#[tactic(auto, unfolding(crate::specs::State::serials_good))]
pub(crate) fn serials_good(slots: &[Name; 8]) -> bool
    ensures { result ≡ serials_good slots.now }
{
    let some = used(slots);
    !some.is_empty() && all_good(some) && all_empty(&slots[some.len()..])
}

// The serials with one more, the newest.
pub(crate) fn added(slots: &[Name; 8], serial: Name) -> [Name; 8]
    requires { length (used slots.now) < 8 }
    ensures { result ≡ added slots.now serial }
{
    let before = used(slots);
    let mut more = [NO_NAME; 8];
    more[..before.len()].copy_from_slice(before);
    more[before.len()] = serial;
    more
}

// ---- what a state says

// The settings in force: the next receipt is spelled with them.
pub fn settings_now(st: State) -> Settings
    ensures { result ≡ settings_now st }
{
    Settings {
        csp: st.csp,
        id: st.id,
        serial: newest(&st.serials),
    }
}

// The settings of the head: those of Open, with the first serial.
pub(crate) fn settings_first(st: State) -> Settings
    ensures { result ≡ settings_first st }
{
    Settings {
        csp: st.csp,
        id: st.id,
        serial: st.serials[0],
    }
}
