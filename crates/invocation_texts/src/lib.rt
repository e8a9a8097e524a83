//! What a reply shows of an invocation, written token by token into the text of the reply.
#![tactic(auto)]

mod invocations;
mod named;

pub use invocations::append_invocation;
