//! The workload over a teller: its requests are asked one after the other, and what comes is
//! counted.
#![tactic(auto)]

mod asking;
mod changes;
mod pages;
mod run;
mod stops;
mod tally;

pub use run::run_load;
pub use stops::Stop;
pub use tally::Tally;
pub use workload_plans::Asking;
