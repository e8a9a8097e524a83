//! An artifact, and a batch of them.
ghost use Rattle.std.specs.Prelude.{◌≡◌};

use crate::new_artifact::Digested;
use names_realms::{ArtifactName, Bytes};
use std::marker::Model;

/// A file of an invocation or of a result, recorded whole.
#[derive(Drop)]
pub struct Artifact {
    /// The place of the invocation that holds it; 0 in a request.
    pub holder: u32,
    pub name: ArtifactName,
    /// Of which kind its contents are, which may be empty.
    pub content_type: Bytes,
    pub contents: Bytes,
    /// The SHA-256 of its contents.
    pub hash: [u8; 32],
}

/// Artifacts of one holder that are to be added to a table, with what was said of them.
#[derive(Drop)]
pub struct ArtifactBatch {
    pub(crate) all: Digested,
}

impl Model for ArtifactBatch {
    ghost use Rattle.artifacts.specs.Requests.{DigestedState};

    ghost Value = { DigestedState };

    ghost view = { λ b. b.all };
}

impl ArtifactBatch {
    /// The artifacts, as they will stand in the table, one behind the other.
    pub fn rows(&self) -> &[Artifact]
        ensures { result.now ≡ self.now.rows }
    {
        self.all.rows()
    }
}
