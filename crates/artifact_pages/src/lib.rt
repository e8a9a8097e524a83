//! Pages of the artifacts of a parent: which rows one shows, and the token of the next one.
#![tactic(auto)]

pub mod laws;
mod pages;
mod queries;

pub use pages::show_artifacts;
pub use queries::ArtifactQuery;
