//! Lists that contracts see as lists, and not as the vectors that keep them.
#![tactic(auto)]

mod listed;
#[cfg(test)]
mod tests;

pub use listed::{Bytes, Listed, Numbers};
