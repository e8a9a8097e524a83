//! The forms of batches of test results and of exonerations: what a request with one says, what is
//! written of it, and what replies show of a row.
#![tactic(auto)]

mod batches;
mod elements;
mod exonerations;
pub mod laws;
mod members;
pub mod names;
mod reasons;
mod replies;
mod results;
mod shown;
mod values;
mod written;

pub use batches::{BatchCreateTestExonerations, BatchCreateTestResults};
pub use replies::name_of_result;
pub use shown::{
    bytes_value, flag_value, properties_value, reason_value, spelled_value, status_value,
    tags_value, text_value, variant_value,
};
