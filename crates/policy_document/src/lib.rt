//! The tables of a configuration, read from a TOML document, or the least path at which it isn't of
//! their shape.
#![tactic(auto)]

mod entries;
mod read;
mod shape;

pub use entries::read_tables;
pub use read::{note_unknown, read_text};
pub use shape::Shape;
