//! The upload of a report: its batches as requests, over links that may break.
#![tactic(auto)]

mod course;
mod dial;
mod plan;
mod request;
#[cfg(test)]
mod tests;
mod visit;

pub use course::{Sent, SinkFault};
pub use plan::upload;
pub use visit::Parting;
