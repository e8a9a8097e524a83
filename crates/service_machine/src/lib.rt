//! The service as a machine of a book: each change carries the command that leads to the world that
//! it makes, and is recorded by it before it is made.
#![tactic(auto)]

pub mod laws;
mod machine;
mod plans;

pub use machine::ServiceMachine;
pub use plans::{PlanFault, RecordedPlan, Wanted};
pub use service_replay::{Core, Counts, Plan, Policy, Prepared, Understood, understand};
