//! A lock of tickets over a value with a history: each turn adds one entry to it, and each seat
//! knows what it has seen.
#![tactic(auto)]

mod board;
mod closing;
mod entrance;
mod held;
mod seat;
mod steps;
#[cfg(test)]
mod tests;
mod turns;
mod turnstile;
mod waiting;

pub use board::Known;
pub use held::{Call, Held, Spent};
pub use seat::Seat;
pub use turnstile::Turnstile;
