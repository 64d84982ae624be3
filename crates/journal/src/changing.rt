// Changing the certificate: a new serial, and an empty section for its receipts.
ghost use Rattle.std.specs.Prelude.{◌≡◌, length};
ghost use Rattle.primitives.specs.Refusals.{answer_number};
ghost use Rattle.journal.specs.Changing.{change_number, changed, change_buffer};
ghost use Rattle.journal.specs.State.{as_changed};

use super::head::put_start;
use super::state::State;
use super::step::{ask_renewal, renewed, sound};
use primitives::Refusal;
use receipt::Name;

// Questions 6, 3, 30, 31 and 13.
fn ask_change(st: State, serial: Name, room: usize) -> Result<(), Refusal>
    ensures { answer_number result ≡ change_number st serial room }
{
    if !sound(st, room) {
        return Err(Refusal::BadState);
    }
    if !receipt::serial_good(serial) {
        return Err(Refusal::BadSerial);
    }
    ask_renewal(st, serial)?;
    if !receipt::has_room(room, st.length, 8 + serial.len) {
        return Err(Refusal::NoRoom);
    }
    Ok(())
}

// Appends the section of the serial and an empty receipts section to the journal in the buffer; a refused call changes nothing.
pub fn change(st: State, serial: Name, buf: &mut [u8]) -> Result<State, Refusal>
    ensures { (as_changed st result ≡ changed st serial (length buf.old)) × (buf.new ≡ change_buffer st serial buf.old) }
{
    ask_change(st, serial, buf.len())?;
    put_start(serial, buf, st.length);
    Ok(renewed(st, serial))
}
