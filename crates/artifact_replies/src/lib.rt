//! What replies show of artifacts: lines of a list, and one whole with its contents in base64. Each
//! is written straight into the text of the reply.
#![tactic(auto)]

pub mod laws;
mod lines;
mod listed;
mod texts;
mod wholes;

pub use artifact_forms::{
    BatchCreateArtifacts, GetArtifact, LimitedText, ListArtifacts, RequestId,
};
pub use artifacts::Artifact;
pub use listed::{ShownArtifacts, append_artifacts};
pub use wholes::append_artifact;
