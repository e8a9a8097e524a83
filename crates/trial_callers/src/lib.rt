//! Callers that ask tellers, each in a thread of its own, and count what they are told. For trials
//! alone.
#![tactic(auto)]

mod asking;
mod callers;
mod counts;

pub use asking::{Task, ask_task};
pub use callers::{Caller, Work, ask_all, ask_in_turn};
pub use counts::Heard;
