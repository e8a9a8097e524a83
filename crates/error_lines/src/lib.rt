//! Lines that are put together on the stack, with numbers in them.
#![tactic(auto)]

mod lines;
#[cfg(test)]
mod tests;

pub use lines::{Line, put, put_number};
