//! The states of invocations, and when those that are finalizing become final.
#![tactic(auto)]

mod aims;
mod candidates;
mod finaliser;
mod laws;
mod node_set;
mod watches;

pub use finaliser::Finaliser;
pub use laws::{in_turn_is_at_once, settles_in_one_way};
