//! The doors of a service: all callers that come in there take turns at one desk.
#![tactic(auto)]

mod joining;
mod office;
mod serving;
mod staff;
mod sums;

pub use office::Office;
pub use service_desk::{BookTeller, Core, Counts, Policy, ServiceMachine};
pub use serving::serve_office;
