//! The service as a teller: a book of it that is asked at the moments of a clock.
#![tactic(auto)]

mod book_teller;
mod inquiry;
mod recording;

pub use book_teller::BookTeller;
pub use inquiry::Inquiry;
pub use recording::serve;
pub use service_machine::{Core, Counts, Policy, ServiceMachine};
