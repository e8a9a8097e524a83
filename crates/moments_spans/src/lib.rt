//! Moments and spans of time, each with one text.
//!
//! `parse` reads exactly the texts of the grammar, and says of every other text what is wrong with
//! it and where. `write_to` appends the one text, with the fewest decimals that are exact.
#![tactic(auto)]

mod civil;
pub mod laws;
mod moment_reading;
mod moments;
mod spans;

pub use moments::{Moment, is_of_years};
pub use spans::Span;
