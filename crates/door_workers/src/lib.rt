//! Doors that are served: each by a worker of its own, in a thread of its own.
#![tactic(auto)]

mod door;
mod reader;
mod tally;
#[cfg(test)]
mod tests;
mod worker;

pub use door::serve_door;
pub use tally::Tally;
pub use worker::{Worked, Worker, serve_doors};
