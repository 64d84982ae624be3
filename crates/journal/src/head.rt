// The layout of a journal: sections and the head, written and read, and an entry at a place.
ghost use Rattle.std.specs.Prelude.{◌≡◌, true, false, ◌&&◌, ◌+◌, ◌≤◌, ◌<◌, leb, eqb, length, MatchOption};
ghost use Rattle.primitives.specs.Place.{overwrite};
ghost use Rattle.primitives.specs.Number.{bytes_of, count_at};
ghost use Rattle.receipt.specs.Settings.{settings_good, serial_good};
ghost use Rattle.journal.specs.Head.{section, pair_start, head, head_length, count_place, section_end, count_place_in, serial_at, start_there, head_settings, there};

use receipt::{Name, Settings};

// The head of a journal: settings that are good.
#[derive(Clone, Copy)]
pub(crate) struct Head {
    pub(crate) settings: Settings,
    ghost good: { settings_good settings ≡ true },
}

impl Head {
    pub(crate) fn new(settings: Settings) -> Option<Head>
        ensures { MatchOption result (settings_good settings ≡ false) (λ h. h.settings ≡ settings) }
    {
        if receipt::settings_good(settings) {
            Some(Head { settings })
        } else {
            None
        }
    }

    // 19 bytes, ID and serial.
    #[tactic(auto, unfolding(crate::specs::Head::head_length))]
    pub(crate) fn length(self) -> usize
        ensures { result ≡ head_length self.settings }
    {
        19 + self.settings.id.len + self.settings.serial.len
    }

    // The place of the receipts count, at the end.
    #[tactic(auto, unfolding(crate::specs::Head::count_place, crate::specs::Head::head_length))]
    pub(crate) fn count_place(self) -> usize
        ensures { result ≡ count_place self.settings }
    {
        self.length() - 4
    }

    // Writes the head of a journal without receipts: the sections of CSP and ID, and the start of the first pair.
    pub(crate) fn write(self, buf: &mut [u8])
        requires { head_length self.settings ≤ length buf.old }
        ensures { buf.new ≡ overwrite buf.old 0 (head self.settings 0) }
    {
        let Settings { csp, id, serial } = self.settings;
        put_section(&csp, buf, 0);
        put_section(&id.bytes[..id.len], buf, 7);
        put_start(serial, buf, 11 + id.len);
    }
}

// ---- writing

// Writes a section at a place: its count and its text.
fn put_section(text: &[u8], buf: &mut [u8], at: usize)
    requires { at + 4 + length text.now ≤ length buf.old }
    ensures { buf.new ≡ overwrite buf.old at (section text.now) }
{
    let _ = receipt::put_number(buf, at, 4, text.len() as u64);
    let _ = receipt::put(buf, at + 4, text);
}

// Writes the count of receipts at its place.
pub(crate) fn put_count(place: usize, count: u32, buf: &mut [u8])
    requires { place + 4 ≤ length buf.old }
    ensures { buf.new ≡ overwrite buf.old place (bytes_of 4 count) }
{
    let _ = receipt::put_number(buf, place, 4, u64::from(count));
}

// Writes the start of a pair without receipts: the section of its serial, and the count 0.
pub(crate) fn put_start(serial: Name, buf: &mut [u8], at: usize)
    requires { (serial_good serial ≡ true) × (at + 8 + serial.len ≤ length buf.old) }
    ensures { buf.new ≡ overwrite buf.old at (pair_start serial 0) }
{
    put_section(&serial.bytes[..serial.len], buf, at);
    put_count(at + 4 + serial.len, 0, buf);
}

// ---- reading

// The number in the n bytes at a place.
pub(crate) fn count_at(j: &[u8], at: usize, n: usize) -> usize
    requires { (n ≤ 4) × (at + n ≤ length j.now) }
    ensures { (result ≡ count_at j.now at n) × (result < 4294967296) }
{
    receipt::number_at(j, at, n).unwrap_or(0) as usize
}

// The place after the section at a place; the section must be complete.
#[tactic(auto, unfolding(crate::specs::Head::section_end))]
fn section_end(j: &[u8], at: usize) -> usize
    requires { section_end j.now at ≤ length j.now }
    ensures { result ≡ section_end j.now at }
{
    at + 4 + count_at(j, at, 4)
}

// The first count is 3, and the head is complete.
#[tactic(auto, unfolding(crate::specs::Head::count_place_in, crate::specs::Head::section_end, crate::specs::Head::serial_place))]
pub(crate) fn head_whole(j: &[u8]) -> bool
    ensures { result ≡ eqb (count_at j.now 0 4) 3 && leb (count_place_in j.now + 4) (length j.now) }
{
    if j.len() < 19 || count_at(j, 0, 4) != 3 {
        return false;
    }
    let id = count_at(j, 7, 4);
    receipt::has_room(j.len(), 19, id)
        && receipt::has_room(j.len(), 19 + id, count_at(j, 11 + id, 4))
}

// The serial in a complete section.
pub(crate) fn serial_at(j: &[u8], at: usize) -> Name
    requires { section_end j.now at ≤ length j.now }
    ensures { result ≡ serial_at j.now at }
{
    receipt::name_of(&j[at + 4..section_end(j, at)])
}

// The settings in a complete head.
pub(crate) fn head_settings(j: &[u8]) -> Settings
    requires { (count_at j.now 0 4 ≡ 3) × (count_place_in j.now + 4 ≤ length j.now) }
    ensures { result ≡ head_settings j.now }
{
    let id_end = section_end(j, 7);
    Settings {
        csp: [j[4], j[5], j[6]],
        id: receipt::name_of(&j[11..id_end]),
        serial: serial_at(j, id_end),
    }
}

// 21: the bytes at a place start a pair: a good serial and a complete count.
#[tactic(auto, unfolding(crate::specs::Head::start_there, crate::specs::Head::section_end))]
pub(crate) fn start_there(j: &[u8], at: usize) -> bool
    ensures { result ≡ start_there j.now at }
{
    receipt::has_room(j.len(), at, 8)
        && receipt::has_room(j.len(), at + 8, count_at(j, at, 4))
        && receipt::serial_good(serial_at(j, at))
}

// 15: the entry's length and bytes are complete.
#[tactic(auto, unfolding(crate::specs::Head::there, crate::specs::Head::length_at))]
pub(crate) fn there(j: &[u8], at: usize) -> bool
    ensures { result ≡ there j.now at }
{
    receipt::has_room(j.len(), at, 2) && receipt::has_room(j.len(), at + 2, count_at(j, at, 2))
}
