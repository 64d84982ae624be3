// Opening a register: a head with count 0, and the fresh state.
ghost use Rattle.std.specs.Prelude.{◌≡◌, length, IfOk};
ghost use Rattle.primitives.specs.Refusals.{answer_number};
ghost use Rattle.journal.specs.Opening.{open_number, opened, open_buffer};
ghost use Rattle.journal.specs.State.{as_opened};

use super::head::Head;
use super::state::State;
use super::step::fresh;
use primitives::Refusal;
use receipt::Settings;

// The head for these settings, if questions 1, 2, 32, 3, 4 and 5 are answered yes.
fn ask_open(settings: Settings, shared: bool, n: usize, room: usize) -> Result<Head, Refusal>
    ensures number { answer_number result ≡ open_number settings shared n room }
    ensures head { IfOk result (λ head. head.settings ≡ settings) }
{
    receipt::ask_settings_for(settings, shared, n)?;
    let head = Head { settings };
    if room < head.length() {
        return Err(Refusal::HeadTooLong);
    }
    Ok(head)
}

// Writes a head to the buffer if every question is answered yes. `shared` says that other registers have the same key; it is not stored.
pub fn open(
    s: Settings,
    key: [u8; 32],
    shared: bool,
    n: usize,
    buf: &mut [u8],
) -> Result<State, Refusal>
    ensures { (as_opened result ≡ opened s key shared n (length buf.old)) × (buf.new ≡ open_buffer s shared n buf.old) }
{
    let head = ask_open(s, shared, n, buf.len())?;
    head.write(buf);
    Ok(fresh(head, n, key))
}
