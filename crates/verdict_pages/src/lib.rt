//! Pages of lists of verdicts and of results: what stands behind a key, so much of it as is asked.
#![tactic(auto)]

mod keys;
pub mod laws;
mod paging;

pub use keys::{ResultKey, VerdictKey, result_key, verdict_key};
pub use paging::{Page, result_page, verdict_page};
