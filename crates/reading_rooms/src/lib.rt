//! Rooms in which bodies are read: the bytes of those that are inside at once are bounded.
#![tactic(auto)]

mod floor;
mod room;
#[cfg(test)]
mod tests;

pub use room::{ReadingRoom, Stay};
