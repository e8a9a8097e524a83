//! Counts of the calls on the outside that failed, and lists of the calls that are to fail.
#![tactic(auto)]

mod counts;
mod schedule;

pub use counts::{Count, counts_add_up};
pub use schedule::{Outcome, Schedule};

#[cfg(test)]
mod tests;

/// A call on the outside failed. The object that answers it counts it in its faults.
#[derive(Clone, Copy, Debug)]
pub struct Failed;
