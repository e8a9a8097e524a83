//! The forms of requests for artifacts: what a request to add, show or list them says, and what is
//! written of it.
#![tactic(auto)]

mod batches;
mod elements;
mod files;
mod hashes;
pub mod laws;
mod listed;
mod named;
mod names;
mod parents;
mod tokens;
mod values;
mod written;

pub use batches::BatchCreateArtifacts;
pub use field_kinds::{LimitedText, RequestId};
pub use hashes::hash_text;
pub use listed::ListArtifacts;
pub use named::GetArtifact;
