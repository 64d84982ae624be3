// The receipt journal of a cash register for callers in other languages: a state is 447 bytes that the caller keeps.
#![tactic(auto)]

mod answers;
mod details;
mod inspection;
mod layout;
mod listing;
mod parts;
mod read_back;
mod register;
mod text;

pub use inspection::{ditgrux_export, ditgrux_read_export};
pub use layout::ditgrux_version;
pub use listing::ditgrux_issue_list;
pub use parts::{ditgrux_check_head, ditgrux_check_steps};
pub use read_back::ditgrux_read;
pub use register::{
    ditgrux_change, ditgrux_counter, ditgrux_issue, ditgrux_journal_length, ditgrux_last_number,
    ditgrux_open, ditgrux_open_shared, ditgrux_prepare, ditgrux_receipts, ditgrux_serial,
    ditgrux_serials, ditgrux_settings, ditgrux_settings_in, ditgrux_take_over,
};
pub use text::{
    ditgrux_base32, ditgrux_base64, ditgrux_code, ditgrux_fields, ditgrux_line, ditgrux_sha256,
    ditgrux_unbase32, ditgrux_unbase64, ditgrux_uncode, ditgrux_unline,
};
