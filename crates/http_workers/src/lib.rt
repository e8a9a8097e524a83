//! Connections that are served: messages come in, each is asked of a teller, and what it tells goes
//! out.
#![tactic(auto)]

mod connection;
mod ended;

pub use connection::serve_connection;
pub use ended::{Cause, Ended};
