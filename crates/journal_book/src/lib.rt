//! A world that is made by commands, with the journal in which they are recorded.
#![tactic(auto)]

mod book;
pub mod laws;
mod machine;
mod opening;
mod steps;

pub use book::{Book, RecordFault};
pub use machine::{Machine, ReplayFault};
