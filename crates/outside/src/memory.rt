//! Ends in memory, for tests.

mod link;
mod output;
mod pieces;
mod sink;
mod source;

pub use link::MemoryLink;
pub use sink::MemorySink;
pub use source::MemorySource;
