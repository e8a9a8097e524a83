//! Reading a source to its end, up to a bound.
#![tactic(auto)]

mod front;

pub use front::{ReadEnd, read_front};

#[cfg(test)]
mod tests;
