//! The ends of the program: what it reads, what it writes, and the clock.
//!
//! Each end is a trait whose ghost members say what the outside gave or took, where it tells it.
#![tactic(auto)]

mod clock;
mod either_end;
mod file;
mod link;
mod memory;
mod pair;
mod sink;
mod source;
mod standard;
mod stream;
mod whole;

pub use clock::{Clock, ListClock, StepClock, WallClock};
pub use either::Either;
pub use fault_counts::{Failed, counts_add_up};
pub use file::FileSource;
pub use link::Link;
pub use memory::{MemoryLink, MemorySink, MemorySource};
pub use pair::PairLink;
pub use sink::Sink;
pub use source::Source;
pub use standard::{StdErr, StdIn, StdOut};
pub use stream::{StreamSink, StreamSource};
pub use whole::{WriteEnd, put_whole, write_whole};

#[cfg(test)]
mod tests;
