//! What is uploaded of a test report: its cases as results, in numbered batches.
#![tactic(auto)]

mod batches;
mod plans;
mod results;
#[cfg(test)]
mod tests;

pub use plans::{Destination, SinkBatch, SinkPlan, plan_of};
