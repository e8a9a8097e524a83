//! Disks that keep only what was synced: what a read gives, and what a crash at any moment may
//! leave.
#![tactic(auto)]

mod ahead;
mod disk;
mod file;
mod give;
mod held;
mod image;
mod laws;
mod memory;
mod overwritten;
mod part_state;
mod range;
mod read_ahead;

pub use ahead::ReadAhead;
pub use disk::Disk;
pub use fault_counts::Failed;
pub use file::FileDisk;
pub use held::Holdable;
pub use laws::{moments_add_up, parts_are_two};
pub use memory::MemoryDisk;
pub use range::Range;

#[cfg(test)]
mod tests;
