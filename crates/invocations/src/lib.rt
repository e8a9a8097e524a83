//! The invocations of the service: a table of rows, found by id, by place and by deadline.
#![tactic(auto)]

mod due;
mod faults;
mod ids;
mod invocation;
pub mod laws;
mod table;

pub use faults::AddFault;
pub use invocation::Invocation;
pub use table::Table;
