// The journal of a register: opened, written by Issue, by lists of receipts and by Change, and taken over, whole or in parts.
#![tactic(auto)]

mod changing;
mod checking;
mod head;
mod issuing;
mod listing;
mod opening;
mod parts;
mod preparing;
mod state;
mod step;

pub use changing::change;
pub use checking::{
    Checked, Step, answer_after, check_entry, check_head, check_serial, check_settings, check_step,
    last_answer, take_over,
};
pub use issuing::{issue, issue_failed};
pub use listing::issue_list;
pub use opening::open;
pub use parts::check_steps;
pub use preparing::prepare;
pub use state::{
    IssuedList, RefusedAt, State, Stop, TakenOver, settings_now, unopened, used_count,
};
