// The settings of a register: CSP, register ID and serial.
ghost use Rattle.std.specs.Prelude.{◌≡◌, true, min};
ghost use Rattle.primitives.specs.Refusals.{answer_number};
ghost use Rattle.receipt.specs.Settings.{id_letter, serial_letter, letter_good, every, name_good, csp_good, id_good, serial_good, settings_good, ends_in_digit, id_allowed, settings_number_for, settings_number, name_text, name_of};

use primitives::{Refusal, width_good};

// A register ID or a serial: its bytes up to its length, then zeros. An array and a length, since the library allocates nothing; a length above 32 is a
// value, too: `name_of` makes it of a longer text, and the name is bad.
#[derive(Clone, Copy, PartialEq, Eq)]
pub struct Name {
    pub bytes: [u8; 32],
    pub len: usize,
}

impl Name {
    // The bytes up to the length; all 32 if the length is above.
    #[tactic(auto, unfolding(crate::specs::Settings::name_text))]
    pub fn text(&self) -> &[u8]
        ensures { result.now ≡ name_text self.now }
    {
        &self.bytes[..self.len.min(32)]
    }

    // The last byte of a good ID is a digit.
    #[tactic(auto, unfolding(crate::specs::Settings::name_good))]
    fn ends_in_digit(&self) -> bool
        requires { id_good self.now ≡ true }
        ensures { result ≡ ends_in_digit self.now }
    {
        self.bytes[self.len - 1].is_ascii_digit()
    }
}

#[derive(Clone, Copy)]
pub struct Settings {
    pub csp: [u8; 3],
    pub id: Name,
    pub serial: Name,
}

// What a byte of a name may be: a letter of an ID, a letter of a serial, or the zero after the end.
// A value and no closure: the definitions `letter_good`, `every` and `name_good` take the class, and keep their meaning.
#[derive(Clone, Copy)]
pub enum Letters {
    Id,
    Serial,
    Zero,
}

// 33 to 126, never '_'.
#[tactic(auto, unfolding(crate::specs::Settings::id_letter, crate::specs::Settings::between))]
fn id_letter(b: u8) -> bool
    ensures { result ≡ id_letter b }
{
    b != b'_' && b.is_ascii_graphic()
}

// 0-9 a-f.
#[tactic(auto, unfolding(crate::specs::Settings::serial_letter, crate::specs::Settings::between))]
fn serial_letter(b: u8) -> bool
    ensures { result ≡ serial_letter b }
{
    matches!(b, b'0'..=b'9' | b'a'..=b'f')
}

impl Letters {
    fn allows(self, b: u8) -> bool
        ensures { result ≡ letter_good self b }
    {
        match self {
            Letters::Id => id_letter(b),
            Letters::Serial => serial_letter(b),
            Letters::Zero => b == 0,
        }
    }
}

// Every byte is of the class.
pub(crate) fn every(class: Letters, s: &[u8]) -> bool
    ensures { result ≡ every class s.now }
{
    s.iter().all(|b| class.allows(*b))
}

// 1 to 32 bytes of the class, then zeros.
#[tactic(auto, unfolding(crate::specs::Settings::name_good, crate::specs::Settings::name_text))]
fn name_good(class: Letters, name: Name) -> bool
    ensures { result ≡ name_good class name }
{
    (1..=32).contains(&name.len)
        && every(class, &name.bytes[..name.len])
        && every(Letters::Zero, &name.bytes[name.len..])
}

// Two letters A-Z and one digit.
#[tactic(auto, unfolding(crate::specs::Settings::csp_good, crate::specs::Settings::between))]
pub fn csp_good(csp: [u8; 3]) -> bool
    ensures { result ≡ csp_good csp }
{
    csp[0].is_ascii_uppercase() && csp[1].is_ascii_uppercase() && csp[2].is_ascii_digit()
}

// 1 to 32 bytes, each 33 to 126, never '_'.
pub fn id_good(id: Name) -> bool
    ensures { result ≡ id_good id }
{
    name_good(Letters::Id, id)
}

// 1 to 32 of 0-9 a-f.
pub fn serial_good(serial: Name) -> bool
    ensures { result ≡ serial_good serial }
{
    name_good(Letters::Serial, serial)
}

#[tactic(auto, unfolding(crate::specs::Settings::settings_good))]
pub fn settings_good(s: Settings) -> bool
    ensures { result ≡ settings_good s }
{
    csp_good(s.csp) && id_good(s.id) && serial_good(s.serial)
}

// Question 32: a register with a shared key has an ID that does not end in a digit.
#[tactic(auto, unfolding(crate::specs::Settings::id_allowed))]
fn id_allowed(shared: bool, id: Name) -> bool
    requires { id_good id ≡ true }
    ensures { result ≡ id_allowed shared id }
{
    !(shared && id.ends_in_digit())
}

// Questions 1, 2, 32, 3 and 4, asked of settings, whether the key is shared, and a counter's width. `shared` is what question 32 asks for.
pub fn ask_settings_for(s: Settings, shared: bool, n: usize) -> Result<(), Refusal>
    ensures { answer_number result ≡ settings_number_for s shared n 0 }
{
    if !csp_good(s.csp) {
        return Err(Refusal::BadCsp);
    }
    if !id_good(s.id) {
        return Err(Refusal::BadId);
    }
    if !id_allowed(shared, s.id) {
        return Err(Refusal::IdEndsInDigit);
    }
    if !serial_good(s.serial) {
        return Err(Refusal::BadSerial);
    }
    if !width_good(n) {
        return Err(Refusal::BadWidth);
    }
    Ok(())
}

// Questions 1 to 4 alone: 32 is not asked.
pub fn ask_settings(s: Settings, n: usize) -> Result<(), Refusal>
    ensures { answer_number result ≡ settings_number s n 0 }
{
    ask_settings_for(s, false, n)
}

// The name with this text. If the text is over 32 bytes long, the first 32 are copied, and the length makes the name bad.
pub fn name_of(text: &[u8]) -> Name
    ensures { result ≡ name_of text.now }
{
    let n = text.len().min(32);
    let mut bytes = [0; 32];
    bytes[..n].copy_from_slice(&text[..n]);
    Name {
        bytes,
        len: text.len(),
    }
}
