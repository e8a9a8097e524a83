//! The world of invocations: their rows, inclusions and states, and the moment of the last change.
#![tactic(auto)]

pub mod laws;
#[cfg(test)]
mod tests;
mod turns;
mod updates;
mod world;

pub use world::InvocationWorld;
