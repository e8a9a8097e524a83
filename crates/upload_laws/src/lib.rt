//! What stands of a report that was uploaded, however often its batches were asked.
#![tactic(auto)]

mod laws;

pub use laws::{batches_are_read, batches_have_each_case, uploaded_is_recorded};
