//! Artifacts: files that are recorded whole, as a table of rows into which batches come whole or
//! not at all.
#![tactic(auto)]

mod artifact;
mod artifact_rows;
mod faults;
mod hashed_bytes;
mod holder_lists;
mod keys;
pub mod laws;
mod new_artifact;
mod pages;

pub use artifact::{Artifact, ArtifactBatch};
pub use artifact_rows::ArtifactRows;
pub use faults::ArtifactFault;
pub use hashed_bytes::HashedBytes;
pub use new_artifact::{Digested, NewArtifact, Said};
pub use pages::ArtifactPage;
