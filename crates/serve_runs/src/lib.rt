//! A run of the service: all that comes in at its doors is answered, and what was counted is told.
#![tactic(auto)]

mod ending;
mod run;

pub use ending::{ServeEnding, served_line};
pub use run::{Returned, serve_all};
pub use served_desk::{BookTeller, Core, Counts, Office, ServiceMachine};
