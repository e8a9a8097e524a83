//! JUnit XML reports, read as cases in one pass, with a stack of the open elements.
#![tactic(auto)]

mod answers;
mod cases;
mod fronts;
pub mod laws;
mod messages;
mod own_text;
mod pending;
mod reading;
mod reports;

pub use junit_parts::{JunitFault, Unsupported};
pub use reports::read_report;
