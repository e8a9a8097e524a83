//! The ids that the tests, results and requests of an uploaded report get.
#![tactic(auto)]

mod digests;
mod test_names;
#[cfg(test)]
mod tests;

pub use digests::ReportDigest;
pub use test_names::test_id;
