//! What replies to batches show of their rows, written token by token into the text of the reply.
#![tactic(auto)]

mod exonerations;
mod names;
mod pairs;
mod replies;
mod results;
mod values;

pub use replies::{append_exonerations, append_results};
