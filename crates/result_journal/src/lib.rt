//! A journal of commands on a disk, of which a stop at any moment leaves a prefix.
#![tactic(auto)]

mod begin;
mod journal;
mod laws;
mod opening;
mod plain;
mod write_through;

use fault_counts::Failed;
pub use journal::{Full, Journal, Standing};
pub use laws::one_reading;
pub use opening::{OpenFault, Opening};
pub use plain::PlainJournal;

/// A call on the disk failed, and the disk counts it in its faults.
#[derive(Clone, Copy, Debug)]
pub struct DiskFailed;

impl From<Failed> for DiskFailed {
    fn from(_: Failed) -> Self {
        DiskFailed
    }
}

#[cfg(test)]
mod tests;
