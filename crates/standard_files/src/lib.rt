//! Standard streams that are there, so that no file which is opened later becomes one of them.
#![tactic(auto)]

mod dev_null;
mod hold;

pub use dev_null::DevNull;
pub use fault_counts::Failed;
pub use hold::{Held, OpenedFile, OpensNull, hold_standard};

#[cfg(test)]
mod tests;
