//! The commands that a journal records, as bytes: each change that the service made, with all that
//! it takes to make it again.
#![tactic(auto)]

mod command;
pub mod laws;
mod reading;
#[cfg(test)]
mod tests;
mod writing;

pub use command::{CallKind, Command, RecordedCall};
pub use reading::read_command;
pub use writing::{has_name_form, record_length, write_call, write_command, write_tick};
