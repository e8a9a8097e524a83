//! The policy of a configuration, read from its text, or the configuration's first fault.
#![tactic(auto)]

mod components;
mod cycle;
mod graph;
mod order;
mod reading;
mod stages;

pub use permissions::{Policy, PolicyFault};
pub use reading::from_toml;
