//! Page tokens: the one text of a place in the answer to a query.
#![tactic(auto)]

mod faults;
mod keys;
mod kinds;
pub mod laws;
mod query;
#[cfg(test)]
mod tests;
mod tokens;

pub use faults::TokenFault;
pub use keys::KeyPart;
pub use kinds::{ArtifactCursor, ResultCursor, VerdictCursor};
pub use query::Query;
pub use tokens::{Cursor, read_token, write_token};
