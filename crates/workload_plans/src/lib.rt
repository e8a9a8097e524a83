//! The workload: a stream of requests that a number makes, one invocation after the other.
#![tactic(auto)]

mod asking;
mod names;
mod plan;
mod requests;

pub use call_forms::{Answer, Asked, Standin, Told};
pub use plan::{Asking, query_of};
pub use workload_draws::{DrawnInvocation, DrawnResult, Draws};
