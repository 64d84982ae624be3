// The calls of a register.
ghost use Rattle.std.specs.Prelude.{◌≡◌, true, false, []};
ghost use lib.ListN.{length};
ghost use Rattle.primitives.specs.Place.{placed};
ghost use Rattle.primitives.specs.Refusals.{answer_number};
ghost use Rattle.device.specs.Layout.{array_of, kept};
ghost use Rattle.device.specs.Calls.{settings_from, width_with, settings_answer, settings_returned, settings_buffer, counter_in, last_number_in, receipt_count_in, journal_length_in, serial_count_in, serial_in, serial_answer, serial_text_in, settings_in_returned, settings_in_left, prepared_from_c, prepared_output, slices_with, opened_number, opened_slices, call_with, issued_number, issued_slices, changed_number, changed_slices, take_over_answer};

use super::answers::{keep_after, tell, tell_index};
use super::details::details_of;
use super::layout::{
    NO_NAME, SETTINGS, STATE, key_of, put_settings, settings_of, state_of, width_of,
};
use journal::State;
use primitives::Refusal;
use receipt::{Name, Settings};

// ---- settings

// The N bytes; zeros if the slice has another length.
pub(crate) fn array_of<const N: usize>(b: &[u8]) -> [u8; N]
    ensures { result ≡ array_of N b.now }
{
    <[u8; N]>::try_from(b).unwrap_or([0; N])
}

fn settings_from(csp: &[u8], id: &[u8], serial: &[u8]) -> Settings
    ensures { result ≡ settings_from csp.now id.now serial.now }
{
    Settings {
        csp: array_of(csp),
        id: receipt::name_of(id),
        serial: receipt::name_of(serial),
    }
}

// The width to use with a key: 0, which is not a valid width, if the key is not 32 bytes long.
pub(crate) fn width_with(key: &[u8], n: usize) -> usize
    ensures { result ≡ width_with key.now n }
{
    if key.len() == 32 { n } else { 0 }
}

// Questions 1 to 4, then 23 for an output of this length.
fn ask_settings(s: Settings, n: usize, room: usize) -> Result<(), Refusal>
    ensures { answer_number result ≡ settings_answer s n room }
{
    receipt::ask_settings(s, n)?;
    if room != SETTINGS {
        return Err(Refusal::OutputShort);
    }
    Ok(())
}

// Writes the settings.
#[unsafe(no_mangle)]
pub extern "C" fn ditgrux_settings(
    csp: &[u8],
    id: &[u8],
    serial: &[u8],
    width: usize,
    key: &[u8],
    settings: &mut [u8],
) -> u32
    ensures { let s : _ = settings_from csp.now id.now serial.now in
        let k : _ = key.now in
        let out : _ = settings.old in
        (result ≡ settings_returned csp.now id.now serial.now width k out) × (settings.new ≡ settings_buffer s k width out) }
{
    let s = settings_from(csp, id, serial);
    let n = width_with(key, width);
    if let Err(refusal) = ask_settings(s, n, settings.len()) {
        return refusal.number();
    }
    put_settings(s, n, array_of(key), settings);
    0
}

// ---- what a state says

// The turnover counter in cents.
#[unsafe(no_mangle)]
pub extern "C" fn ditgrux_counter(state: &[u8]) -> i64
    ensures { result ≡ counter_in state.now }
{
    state_of(state).counter
}

// The last receipt number.
#[unsafe(no_mangle)]
pub extern "C" fn ditgrux_last_number(state: &[u8]) -> u32
    ensures { result ≡ last_number_in state.now }
{
    state_of(state).last
}

// The receipts issued.
#[unsafe(no_mangle)]
pub extern "C" fn ditgrux_receipts(state: &[u8]) -> u32
    ensures { result ≡ receipt_count_in state.now }
{
    state_of(state).issued
}

// The length of the journal.
#[unsafe(no_mangle)]
pub extern "C" fn ditgrux_journal_length(state: &[u8]) -> usize
    ensures { result ≡ journal_length_in state.now }
{
    state_of(state).length
}

// How many serials the register has had.
#[unsafe(no_mangle)]
pub extern "C" fn ditgrux_serials(state: &[u8]) -> u32
    ensures { result ≡ serial_count_in state.now }
{
    journal::used_count(state_of(state).serials) as u32
}

// One of the register's serials, from 0; the empty name if there is no such serial.
fn serial_in(st: State, which: u32) -> Name
    ensures { result ≡ serial_in st which }
{
    let which = which as usize;
    if which < journal::used_count(st.serials) {
        st.serials[which]
    } else {
        NO_NAME
    }
}

// Writes one of the register's serials, as text.
#[unsafe(no_mangle)]
pub extern "C" fn ditgrux_serial(
    state: &[u8],
    which: u32,
    output: &mut [u8],
    length: &mut usize,
) -> u32
    ensures { let text : _ = serial_text_in state.now which in
        (result ≡ (serial_answer (serial_text_in state.now which) (lib.ListN.length output.old)).number)
        × (output.new ≡ placed output.old 0 text)
        × (length.new ≡ (serial_answer text (lib.ListN.length output.old)).length) }
{
    let serial = serial_in(state_of(state), which);
    let n = serial.len.min(32);
    if output.len() < n {
        *length = 0;
        return Refusal::OutputShort.number();
    }
    let _ = receipt::put(output, 0, &serial.bytes[..n]);
    *length = n;
    0
}

// Writes the settings with one of the register's serials.
#[unsafe(no_mangle)]
pub extern "C" fn ditgrux_settings_in(state: &[u8], which: u32, settings: &mut [u8]) -> u32
    ensures { (result ≡ settings_in_returned settings.old) × (settings.new ≡ settings_in_left state.now which settings.old) }
{
    if settings.len() != SETTINGS {
        return Refusal::OutputShort.number();
    }
    let st = state_of(state);
    // Into locals first: the check covers no field that is an array and goes into a struct.
    let csp = st.csp;
    let id = st.id;
    let serial = serial_in(st, which);
    put_settings(Settings { csp, id, serial }, st.width, st.key, settings);
    0
}

// ---- open

// Writes the head of a journal and the state that goes with it. 6 if the state is not 447 bytes long, then Open's questions.
fn open_with(settings: &[u8], shared: bool, journal: &mut [u8], state: &mut [u8]) -> u32
    ensures { let g : _ = slices_with state.old journal.old in
        (result ≡ opened_number settings.now shared g)
        × (journal.new ≡ (opened_slices settings.now shared g).journal)
        × (state.new ≡ (opened_slices settings.now shared g).state) }
{
    if state.len() != STATE {
        return Refusal::BadState.number();
    }
    let opened = journal::open(
        settings_of(settings),
        key_of(settings),
        shared,
        width_of(settings),
        journal,
    );
    keep_after(opened, journal::unopened(), state)
}

// Opens a register. Questions 6 and 1 to 5.
#[unsafe(no_mangle)]
pub extern "C" fn ditgrux_open(settings: &[u8], journal: &mut [u8], state: &mut [u8]) -> u32
    ensures { let g : _ = slices_with state.old journal.old in
        (result ≡ opened_number settings.now false g)
        × (journal.new ≡ (opened_slices settings.now false g).journal)
        × (state.new ≡ (opened_slices settings.now false g).state) }
{
    open_with(settings, false, journal, state)
}

// Opens a register that shares its key with other registers. Questions 6, 1, 2, 32, 3, 4 and 5.
#[unsafe(no_mangle)]
pub extern "C" fn ditgrux_open_shared(settings: &[u8], journal: &mut [u8], state: &mut [u8]) -> u32
    ensures { let g : _ = slices_with state.old journal.old in
        (result ≡ opened_number settings.now true g)
        × (journal.new ≡ (opened_slices settings.now true g).journal)
        × (state.new ≡ (opened_slices settings.now true g).state) }
{
    open_with(settings, true, journal, state)
}

// ---- prepare

// Writes what the device signs. Questions 6 to 11, then 13 for the output.
#[unsafe(no_mangle)]
pub extern "C" fn ditgrux_prepare(
    state: &[u8],
    number: u32,
    year: u32,
    month: u32,
    day: u32,
    hour: u32,
    minute: u32,
    second: u32,
    standard: i64,
    reduced_1: i64,
    reduced_2: i64,
    zero: i64,
    special: i64,
    kind: u32,
    output: &mut [u8],
    length: &mut usize,
) -> u32
    ensures { let c : _ = call_with number year month day hour minute second standard reduced_1 reduced_2 zero special kind [] in
        let a : _ = prepared_from_c state.now c (lib.ListN.length output.old) in
        (result ≡ a.number) × (output.new ≡ prepared_output state.now c output.old) × (length.new ≡ a.length) }
{
    let d = details_of(
        number, year, month, day, hour, minute, second, standard, reduced_1, reduced_2, zero,
        special, kind,
    );
    tell(journal::prepare(state_of(state), d, output), length)
}

// ---- issue

// Appends a receipt to the journal and writes the new state. Questions 6 to 13.
#[unsafe(no_mangle)]
pub extern "C" fn ditgrux_issue(
    state: &mut [u8],
    number: u32,
    year: u32,
    month: u32,
    day: u32,
    hour: u32,
    minute: u32,
    second: u32,
    standard: i64,
    reduced_1: i64,
    reduced_2: i64,
    zero: i64,
    special: i64,
    kind: u32,
    signature: &[u8],
    journal: &mut [u8],
) -> u32
    ensures { let c : _ = call_with number year month day hour minute second standard reduced_1 reduced_2 zero special kind signature.now in
        (result ≡ issued_number (slices_with state.old journal.old) c)
        × (state.new ≡ (issued_slices (slices_with state.old journal.old) c).state)
        × (journal.new ≡ (issued_slices (slices_with state.old journal.old) c).journal) }
{
    let st = state_of(state);
    let d = details_of(
        number, year, month, day, hour, minute, second, standard, reduced_1, reduced_2, zero,
        special, kind,
    );
    keep_after(journal::issue(st, d, signature, journal), st, state)
}

// ---- change

// Appends a new serial and an empty section of receipts to the journal and writes the new state. Questions 6, 3, 30, 31 and 13.
#[unsafe(no_mangle)]
pub extern "C" fn ditgrux_change(state: &mut [u8], serial: &[u8], journal: &mut [u8]) -> u32
    ensures { let g : _ = slices_with state.old journal.old in
        (result ≡ changed_number g serial.now)
        × (state.new ≡ (changed_slices g serial.now).state)
        × (journal.new ≡ (changed_slices g serial.now).journal) }
{
    let st = state_of(state);
    let changed = journal::change(st, receipt::name_of(serial), journal);
    keep_after(changed, st, state)
}

// ---- take over

// Checks a whole journal and writes the state that it leads to. 6 if the state is not 447 bytes long, then questions 4 and 14 to 21, 30 and 31.
#[unsafe(no_mangle)]
pub extern "C" fn ditgrux_take_over(
    journal: &[u8],
    key: &[u8],
    width: usize,
    state: &mut [u8],
    index: &mut u32,
) -> u32
    ensures { (result ≡ (take_over_answer journal.now key.now width (length state.old)).number)
        × (state.new ≡ kept state.old (take_over_answer journal.now key.now width (length state.old)).state)
        × (index.new ≡ (take_over_answer journal.now key.now width (length state.old)).index) }
{
    if state.len() != STATE {
        *index = 0;
        return Refusal::BadState.number();
    }
    let taken = journal::take_over(journal, array_of(key), width_with(key, width));
    keep_after(tell_index(taken, index), journal::unopened(), state)
}
