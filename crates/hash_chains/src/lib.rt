//! Places that are found by a hash.
#![tactic(auto)]

mod chains;
pub mod laws;

pub use chains::HashChains;
