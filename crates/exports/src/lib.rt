// The export of a journal for an inspector: written, and read back into the journal.
#![tactic(auto)]

mod certificates;
mod lexer;
mod naming;
mod output;
mod payload;
mod reading;
mod rebuilding;
mod retaking;
mod shape;
mod strings;
mod survey;
mod walk;
mod writing;

pub use reading::{Restored, read_export};
pub use writing::export;
