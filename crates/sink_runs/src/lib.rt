//! A run of the sink: a report is read, planned and uploaded.
#![tactic(auto)]

mod ending;
mod report;
mod run;
mod settings;

pub use ending::{SinkEnd, SinkEnding, sent_line, tell};
pub use report::ReportFault;
pub use run::send_report;
