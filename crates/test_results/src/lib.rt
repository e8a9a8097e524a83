//! The results of tests and their exonerations: tables of rows into which batches come whole or not
//! at all.
#![tactic(auto)]

mod exoneration;
mod exoneration_rows;
mod faults;
mod holder_lists;
mod key_places;
mod keys;
pub mod laws;
mod result;
mod result_rows;

pub use exoneration::{ExonerationBatch, TestExoneration};
pub use exoneration_rows::ExonerationRows;
pub use faults::BatchFault;
pub use result::{ResultBatch, TestResult};
pub use result_rows::ResultRows;
