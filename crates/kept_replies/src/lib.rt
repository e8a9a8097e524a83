//! Replies to numbered requests, kept for good, and found by the caller and the number.
#![tactic(auto)]

mod keys;
mod reply;
mod table;

pub use reply::{KeptAnswer, KeptReply};
pub use table::{KeptReplies, Ready};
