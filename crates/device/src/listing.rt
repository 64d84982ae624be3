// A list of receipts as bytes, all issued with a failed device.
ghost use Rattle.std.specs.Prelude.{◌≡◌, [], ◌∷◌, ◌/◌, ◌%◌, length};
ghost use Rattle.journal.specs.State.{as_issued_list};
ghost use Rattle.journal.specs.Listing.{issued_list, list_buffer};
ghost use Rattle.device.specs.Layout.{state_of};
ghost use Rattle.device.specs.Details.{no_details, details_from, list_in};
ghost use Rattle.device.specs.Calls.{slices_with, listed_number, listed_count, listed_slices};

use super::details::{DETAILS, details_in, no_details};
use super::layout::{keep, state_of};
use journal::IssuedList;

// Issues the receipts of a whole number of details, in order, up to the first that is refused. It takes the state as bytes: a copy of a
// whole state takes stack.
fn issue_each(state: &[u8], list: &[u8], buf: &mut [u8]) -> IssuedList
    requires { length list.now % 72 ≡ 0 }
    ensures { let ds : _ = details_from (length list.now / 72) list.now in
        let st : _ = state_of state.now in
        (as_issued_list result ≡ issued_list st ds buf.old) × (buf.new ≡ list_buffer st ds buf.old) }
{
    let mut state = state_of(state);
    let receipts = list.len() / DETAILS;
    for count in 0..receipts {
        let at = DETAILS * count;
        match journal::issue_failed(state, details_in(&list[at..at + DETAILS]), buf) {
            Ok(after) => state = after,
            Err(refusal) => {
                return IssuedList {
                    refused: Some(refusal),
                    count,
                    state,
                };
            }
        }
    }
    IssuedList {
        refused: None,
        count: receipts,
        state,
    }
}

// Issues none, for a list that is not a whole number of details: refused as receipt number 0 is.
fn issue_none(state: &[u8], buf: &mut [u8]) -> IssuedList
    ensures { (as_issued_list result ≡ issued_list (state_of state.now) (no_details ∷ []) buf.old) × (buf.new ≡ buf.old) }
{
    let state = state_of(state);
    IssuedList {
        refused: journal::issue_failed(state, no_details(), buf).err(),
        count: 0,
        state,
    }
}

// Issues the receipts of a list, in order, up to the first that is refused.
fn issue_bytes(state: &[u8], list: &[u8], buf: &mut [u8]) -> IssuedList
    ensures { let ds : _ = list_in list.now in
        let st : _ = state_of state.now in
        (as_issued_list result ≡ issued_list st ds buf.old) × (buf.new ≡ list_buffer st ds buf.old) }
{
    if list.len() % DETAILS != 0 {
        return issue_none(state, buf);
    }
    issue_each(state, list, buf)
}

// Issues the receipts of a list and writes the new state. Questions 6 to 11 and 13 for each.
#[unsafe(no_mangle)]
pub extern "C" fn ditgrux_issue_list(
    state: &mut [u8],
    list: &[u8],
    journal: &mut [u8],
    issued: &mut usize,
) -> u32
    ensures { let g : _ = slices_with state.old journal.old in
        (result ≡ listed_number g list.now)
        × (state.new ≡ (listed_slices g list.now).state)
        × (journal.new ≡ (listed_slices g list.now).journal)
        × (issued.new ≡ listed_count g list.now) }
{
    let answer = issue_bytes(state, list, journal);
    keep(answer.state, state);
    *issued = answer.count;
    match answer.refused {
        None => 0,
        Some(refusal) => refusal.number(),
    }
}
