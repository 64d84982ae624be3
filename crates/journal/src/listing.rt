// A list of receipts, all issued with a failed device.
ghost use Rattle.std.specs.Prelude.{◌≡◌};
ghost use Rattle.journal.specs.Listing.{issued_list, list_buffer};
ghost use Rattle.journal.specs.State.{as_issued_list};

use super::issuing::issue_failed;
use super::state::{IssuedList, State};
use receipt::Details;

// Issues the receipts in order, up to the first that is refused. State and buffer are as the last issued one left them.
pub fn issue_list(st: State, list: &[Details], buf: &mut [u8]) -> IssuedList
    ensures { (as_issued_list result ≡ issued_list st list.now buf.old) × (buf.new ≡ list_buffer st list.now buf.old) }
{
    let mut state = st;
    for (count, d) in list.iter().enumerate() {
        match issue_failed(state, *d, buf) {
            Ok(after) => state = after,
            Err(refusal) => {
                return IssuedList {
                    refused: Some(refusal),
                    count,
                    state,
                };
            }
        }
    }
    IssuedList {
        refused: None,
        count: list.len(),
        state,
    }
}
