// One step of a register: what is asked of the state and of the details, the fields that a receipt gets, and the state after a receipt
// or after the start of a pair.
ghost use Rattle.std.specs.Prelude.{◌≡◌, true, cond, ◌&&◌, ◌+◌, ◌<◌, leb, length, replicate};
ghost use Rattle.primitives.specs.Aes.{key_schedule};
ghost use Rattle.primitives.specs.Refusals.{answer_number};
ghost use Rattle.receipt.specs.Settings.{csp_good, id_good, settings_good};
ghost use Rattle.receipt.specs.Chain.{encrypted_counter};
ghost use Rattle.receipt.specs.Details.{standard, as_after};
ghost use Rattle.journal.specs.Step.{fresh, sound_alone, sound, first_good, new_counter, details_number, fields_of, next, renew_number, renewed};
ghost use Rattle.journal.specs.State.{used, serials_good, settings_first, head_length_now};

use super::head::Head;
use super::state::{NO_NAME, State, added, serials_good, settings_first, used};
use primitives::Refusal;
use receipt::{Details, Kind, Name, PayloadFields, Settings};

// ---- the state of a register without receipts

// The state after a head with count 0.
pub(crate) fn fresh(head: Head, n: usize, key: [u8; 32]) -> State
    ensures { result ≡ fresh head.settings n key }
{
    let Settings { csp, id, serial } = head.settings;
    let mut serials = [NO_NAME; 8];
    serials[0] = serial;
    State {
        csp,
        id,
        serials,
        width: n,
        key,
        counter: 0,
        last: 0,
        issued: 0,
        chain: receipt::chain_value(&id.bytes[..id.len]),
        length: head.length(),
        since: 0,
        place: head.count_place(),
    }
}

// ---- the questions

// CSP, ID and serials are good.
fn names_good(st: State) -> bool
    ensures { result ≡ (csp_good st.csp && (id_good st.id && serials_good st.serials)) }
{
    receipt::csp_good(st.csp) && receipt::id_good(st.id) && serials_good(&st.serials)
}

// The head ends within the journal.
fn head_within(st: State) -> bool
    requires { settings_good (settings_first st) ≡ true }
    ensures { result ≡ leb (head_length_now st) st.length }
{
    let head = Head {
        settings: settings_first(st),
    };
    head.length() <= st.length
}

// Question 6, without its part about the buffer: no more receipts in the open section than issued, and no more issued than the last number; the
// open section's count and the head end within the journal.
#[tactic(auto, using(crate::proofs::Answers::names_first), unfolding(crate::specs::Step::sound_alone, crate::specs::Step::count_within))]
pub(crate) fn sound_alone(st: State) -> bool
    ensures { result ≡ sound_alone st }
{
    names_good(st)
        && receipt::width_good(st.width)
        && receipt::counter_fits(st.width, st.counter)
        && st.issued <= st.last
        && st.since <= st.issued
        && receipt::has_room(st.length, st.place, 4)
        && head_within(st)
}

// Question 6, with a buffer of this length.
#[tactic(auto, unfolding(crate::specs::Step::sound))]
pub(crate) fn sound(st: State, room: usize) -> bool
    ensures { result ≡ sound st room }
{
    sound_alone(st) && st.length <= room
}

// Questions 10 and 18: the first receipt is a standard one with five zeros.
#[tactic(auto, unfolding(crate::specs::Step::first_good))]
pub(crate) fn first_good(st: State, d: Details) -> bool
    ensures { result ≡ first_good st d }
{
    st.issued != 0 || receipt::start_good(d)
}

// The counter after a receipt, if it fits.
pub(crate) fn new_counter(st: State, d: Details) -> Option<i64>
    ensures { as_after st.counter result ≡ new_counter st d }
{
    receipt::counter_after(st.width, st.counter, d)
}

// Questions 7 to 11.
pub(crate) fn ask_details(st: State, d: Details) -> Result<(), Refusal>
    ensures { answer_number result ≡ details_number st d 0 }
{
    if d.number <= st.last {
        return Err(Refusal::NumberNotAbove);
    }
    if !receipt::date_good(d.date) {
        return Err(Refusal::BadDate);
    }
    if !receipt::amounts_good(d.amounts) {
        return Err(Refusal::BadAmount);
    }
    if !first_good(st, d) {
        return Err(Refusal::NoStart);
    }
    if new_counter(st, d).is_none() {
        return Err(Refusal::CounterFull);
    }
    Ok(())
}

// ---- the fields of the receipt

// The counter field: on a standard receipt the encrypted counter, else eight zeros.
fn counter_field(
    kind: Kind,
    key: [u8; 32],
    id: Name,
    number: u32,
    width: usize,
    counter: i64,
) -> [u8; 8]
    ensures { result ≡ cond (standard kind) (encrypted_counter (key_schedule key) id number width counter) (replicate 8 0) }
{
    match kind {
        Kind::Standard => {
            receipt::encrypt_counter(&receipt::counter_key(key), id, number, width, counter)
        }
        Kind::Cancellation | Kind::Training => [0; 8],
    }
}

// The fields of a receipt. `counter_field` takes parts of the state: a copy of a whole state takes stack. They are named first, since the check does not
// cover an array field that is put straight into a literal after a call.
pub(crate) fn fields_of(st: State, d: Details) -> PayloadFields
    ensures { result ≡ fields_of st d }
{
    let State {
        key,
        id,
        width,
        chain,
        ..
    } = st;
    let after = new_counter(st, d).unwrap_or(st.counter);
    let counter = counter_field(d.kind, key, id, d.number, width, after);
    PayloadFields {
        details: d,
        counter,
        chain,
    }
}

// ---- the state after it

// The state after a receipt with this compact form.
pub(crate) fn next(st: State, d: Details, text: &[u8]) -> State
    requires { (st.issued + 1 < 4294967296) × (st.since + 1 < 4294967296) × (st.length + 2 + length text.now < 18446744073709551616) }
    ensures { result ≡ next st d text.now }
{
    let after = new_counter(st, d).unwrap_or(st.counter);
    State {
        counter: after,
        last: d.number,
        issued: st.issued + 1,
        chain: receipt::chain_value(text),
        length: st.length + 2 + text.len(),
        since: st.since + 1,
        ..st
    }
}

// ---- the start of a pair

// Questions 30 and 31: a serial that was not used, and not a ninth one.
pub(crate) fn ask_renewal(st: State, serial: Name) -> Result<(), Refusal>
    ensures { answer_number result ≡ renew_number st serial 0 }
{
    let serials = used(&st.serials);
    if serials.contains(&serial) {
        return Err(Refusal::SerialUsed);
    }
    if 8 <= serials.len() {
        return Err(Refusal::SerialsFull);
    }
    Ok(())
}

// The state after the start of a pair with this serial.
pub(crate) fn renewed(st: State, serial: Name) -> State
    requires { (length (used st.serials) < 8) × (st.length + 8 + serial.len < 18446744073709551616) }
    ensures { result ≡ renewed st serial }
{
    State {
        serials: added(&st.serials, serial),
        length: st.length + 8 + serial.len,
        since: 0,
        place: st.length + 4 + serial.len,
        ..st
    }
}
