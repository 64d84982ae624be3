// Settings and the state of a register, read from bytes and written as bytes. Numbers are big-endian.
ghost use Rattle.std.specs.Prelude.{◌≡◌, ◌++◌, ◌+◌, ◌≤◌, length, take, drop};
ghost use Rattle.primitives.specs.Place.{overwrite};
ghost use Rattle.primitives.specs.Number.{bytes_of, count_at};
ghost use Rattle.primitives.specs.Counter.{counter_bytes, counter_value};
ghost use Rattle.device.specs.Layout.{version, name_bytes, settings_bytes, names_bytes, register_bytes, state_bytes, name_at, settings_at, width_at, key_at, names_at, state_at, settings_of, width_of, key_of, state_of, kept};

use journal::State;
use receipt::{Name, Settings};

// The version of the layouts.
#[unsafe(no_mangle)]
pub extern "C" fn ditgrux_version() -> u32
    ensures { result ≡ version }
{
    2
}

// Settings are 123 bytes long, a state is 447 bytes long.
pub(crate) const SETTINGS: usize = 123;

pub(crate) const STATE: usize = 447;

pub(crate) const NO_NAME: Name = Name {
    bytes: [0; 32],
    len: 0,
};

// ---- reading

pub(crate) fn array_at<const N: usize>(b: &[u8], at: usize) -> [u8; N]
    requires { at + N ≤ length b.now }
    ensures { result ≡ take N (drop at b.now) }
{
    let mut bytes = [0; N];
    bytes.copy_from_slice(&b[at..at + N]);
    bytes
}

// The number of four bytes.
pub(crate) fn word_at(b: &[u8], at: usize) -> u32
    requires { at + 4 ≤ length b.now }
    ensures { result ≡ count_at b.now at 4 }
{
    u32::from_be_bytes(array_at(b, at))
}

// The number of eight bytes.
fn long_at(b: &[u8], at: usize) -> usize
    requires { at + 8 ≤ length b.now }
    ensures { result ≡ count_at b.now at 8 }
{
    usize::from_be_bytes(array_at(b, at))
}

// The counter, or an amount, of eight bytes.
pub(crate) fn counter_at(b: &[u8], at: usize) -> i64
    requires { at + 8 ≤ length b.now }
    ensures { result ≡ counter_value 8 (take 8 (drop at b.now)) }
{
    primitives::counter_value(8, array_at(b, at))
}

fn name_at(b: &[u8], at: usize) -> Name
    requires { at + 40 ≤ length b.now }
    ensures { result ≡ name_at b.now at }
{
    Name {
        bytes: array_at(b, at),
        len: long_at(b, at + 32),
    }
}

fn settings_at(b: &[u8]) -> Settings
    requires { 123 ≤ length b.now }
    ensures { result ≡ settings_at b.now }
{
    Settings {
        csp: array_at(b, 0),
        id: name_at(b, 3),
        serial: name_at(b, 43),
    }
}

fn width_at(b: &[u8]) -> usize
    requires { 123 ≤ length b.now }
    ensures { result ≡ width_at b.now }
{
    long_at(b, 83)
}

fn key_at(b: &[u8]) -> [u8; 32]
    requires { 123 ≤ length b.now }
    ensures { result ≡ key_at b.now }
{
    array_at(b, 91)
}

// The eight serials of a state.
fn serials_at(b: &[u8]) -> [Name; 8]
    requires { 447 ≤ length b.now }
    ensures { result ≡ names_at b.now 43 8 }
{
    // Eight calls: with `array::from_fn` over names the proof did not close.
    [
        name_at(b, 43),
        name_at(b, 83),
        name_at(b, 123),
        name_at(b, 163),
        name_at(b, 203),
        name_at(b, 243),
        name_at(b, 283),
        name_at(b, 323),
    ]
}

fn state_at(b: &[u8]) -> State
    requires { 447 ≤ length b.now }
    ensures { result ≡ state_at b.now }
{
    State {
        csp: array_at(b, 0),
        id: name_at(b, 3),
        serials: serials_at(b),
        width: long_at(b, 363),
        key: array_at(b, 371),
        counter: counter_at(b, 403),
        last: word_at(b, 411),
        issued: word_at(b, 415),
        chain: array_at(b, 419),
        length: long_at(b, 427),
        since: word_at(b, 435),
        place: long_at(b, 439),
    }
}

// ---- slices of any length

// The settings in 123 bytes; all zero if the slice has another length. Settings, width and key each ask the length of the slice, since C lends one of any
// length and the definitions `settings_of`, `width_of` and `key_of` answer for each.
pub(crate) fn settings_of(b: &[u8]) -> Settings
    ensures { result ≡ settings_of b.now }
{
    if b.len() != SETTINGS {
        return Settings {
            csp: [0; 3],
            id: NO_NAME,
            serial: NO_NAME,
        };
    }
    settings_at(b)
}

// The width in 123 bytes.
pub(crate) fn width_of(b: &[u8]) -> usize
    ensures { result ≡ width_of b.now }
{
    if b.len() != SETTINGS {
        return 0;
    }
    width_at(b)
}

// The key in 123 bytes.
pub(crate) fn key_of(b: &[u8]) -> [u8; 32]
    ensures { result ≡ key_of b.now }
{
    if b.len() != SETTINGS {
        return [0; 32];
    }
    key_at(b)
}

// The state in 447 bytes; the unopened state if the slice has another length.
pub(crate) fn state_of(b: &[u8]) -> State
    ensures { result ≡ state_of b.now }
{
    if b.len() != STATE {
        return journal::unopened();
    }
    state_at(b)
}

// ---- writing

// Writes a name at a place: 32 bytes, and its length in eight.
fn put_name(name: Name, out: &mut [u8], at: usize)
    requires { at + 40 ≤ length out.old }
    ensures { out.new ≡ overwrite out.old at (name_bytes name) }
{
    let _ = receipt::put(out, at, &name.bytes);
    let _ = receipt::put_number(out, at + 32, 8, name.len as u64);
}

// Writes CSP, ID and serial to the start.
fn put_names(s: Settings, out: &mut [u8])
    requires { 83 ≤ length out.old }
    ensures { out.new ≡ overwrite out.old 0 (s.csp ++ name_bytes s.id ++ name_bytes s.serial) }
{
    let _ = receipt::put(out, 0, &s.csp);
    put_name(s.id, out, 3);
    put_name(s.serial, out, 43);
}

// Writes width and key after them.
fn put_key(n: usize, key: [u8; 32], out: &mut [u8])
    requires { 123 ≤ length out.old }
    ensures { out.new ≡ overwrite out.old 83 (bytes_of 8 n ++ key) }
{
    let _ = receipt::put_number(out, 83, 8, n as u64);
    let _ = receipt::put(out, 91, &key);
}

// Writes settings, width and key to the start.
pub(crate) fn put_settings(s: Settings, n: usize, key: [u8; 32], out: &mut [u8])
    requires { 123 ≤ length out.old }
    ensures { out.new ≡ overwrite out.old 0 (settings_bytes s n key) }
{
    put_names(s, out);
    put_key(n, key, out);
}

// Writes the eight serials of a state.
fn put_serials(slots: [Name; 8], out: &mut [u8])
    requires { 363 ≤ length out.old }
    ensures { out.new ≡ overwrite out.old 43 (names_bytes slots) }
{
    for (i, serial) in slots.iter().enumerate() {
        put_name(*serial, out, 43 + 40 * i);
    }
}

// Writes CSP, ID, serials, width and key of a state to the start.
fn put_register(st: State, out: &mut [u8])
    requires { 403 ≤ length out.old }
    ensures { out.new ≡ overwrite out.old 0 (register_bytes st) }
{
    let _ = receipt::put(out, 0, &st.csp);
    put_name(st.id, out, 3);
    put_serials(st.serials, out);
    let _ = receipt::put_number(out, 363, 8, st.width as u64);
    let _ = receipt::put(out, 371, &st.key);
}

// Writes counter, last number and receipts issued after them.
fn put_counts(st: State, out: &mut [u8])
    requires { 447 ≤ length out.old }
    ensures { out.new ≡ overwrite out.old 403 (counter_bytes 8 st.counter ++ bytes_of 4 st.last ++ bytes_of 4 st.issued) }
{
    let _ = receipt::put(out, 403, &primitives::counter_bytes(8, st.counter));
    let _ = receipt::put_number(out, 411, 4, st.last as u64);
    let _ = receipt::put_number(out, 415, 4, st.issued as u64);
}

// Writes the chain value, the length of the journal, the receipts in the open section and the place of its count after them.
fn put_chain(st: State, out: &mut [u8])
    requires { 447 ≤ length out.old }
    ensures { out.new ≡ overwrite out.old 419 (st.chain ++ bytes_of 8 st.length ++ bytes_of 4 st.since ++ bytes_of 8 st.place) }
{
    let _ = receipt::put(out, 419, &st.chain);
    let _ = receipt::put_number(out, 427, 8, st.length as u64);
    let _ = receipt::put_number(out, 435, 4, st.since as u64);
    let _ = receipt::put_number(out, 439, 8, st.place as u64);
}

// Writes a state as 447 bytes.
fn put_state(st: State, out: &mut [u8])
    requires { length out.old ≡ 447 }
    ensures { out.new ≡ state_bytes st }
{
    put_register(st, out);
    put_counts(st, out);
    put_chain(st, out);
}

// Writes a state to its slice; nothing if the slice is not 447 bytes long.
pub(crate) fn keep(st: State, out: &mut [u8])
    ensures { out.new ≡ kept out.old st }
{
    if out.len() == STATE {
        put_state(st, out);
    }
}
