//! Reports in TAP 14, the Test Anything Protocol, read as cases.
//!
//! A report is a list of lines, of which plans, points and bail-outs count. By their levels they
//! make a tree: a subtest is a stream of its own one level deeper, and stands before its point.
//! Each report gives its cases, or its first fault.
#![tactic(auto)]

mod cases;
mod completing;
mod entries;
mod faults;
mod forms;
pub mod laws;
mod lengths;
mod lines;
mod marks;
mod messages;
mod reading;
mod reports;

pub use faults::TapFault;
pub use names_realms::{Bytes, Case, Status};
pub use reports::read_report;
