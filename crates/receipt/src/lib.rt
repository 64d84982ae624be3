// Receipts as text: how they are spelled, and how they are read back.
#![tactic(auto)]

mod amount;
mod amounts;
mod bytes;
mod chain;
mod datetime;
mod decimal;
mod details;
mod entry;
mod form;
mod machine_code;
mod optical_line;
mod payload;
mod separators;
mod settings;

pub use amounts::amounts_good;
pub use chain::{chain_value, counter_iv, counter_key, decrypt_counter, encrypt_counter};
pub use datetime::{DateTime, date_good};
pub use details::{Details, Kind, counter_after, start_good};
pub use entry::{Entry, Signature, put_compact, put_signing_input, read_entry};
pub use form::LONGEST_COMPACT;
pub use machine_code::{LONGEST_CODE, Part, code, fields, id_place, uncode};
pub use optical_line::{line, unline};
pub use payload::PayloadFields;
pub use settings::{
    Letters, Name, Settings, ask_settings, ask_settings_for, csp_good, id_good, name_of,
    serial_good, settings_good,
};

// What the journal needs of the primitives: refusals, bytes and numbers at a place in a buffer, and the widths of a counter.
pub use primitives::{
    Refusal, answer_number, counter_fits, has_room, number_at, put, put_number, same, width_good,
};
