//! The desk: many callers take turns with one book of the service, and one history tells what each
//! was told.
#![tactic(auto)]

mod clerk;
mod desk;
mod shelf;

pub use clerk::Clerk;
pub use desk::Desk;
pub use record_desk::{BookTeller, Core, Counts, Policy, ServiceMachine};
pub use shelf::{Line, Shelf};
