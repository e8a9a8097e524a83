//! The elements of a batch, each an artifact in the invocation of the first.
ghost use Rattle.std.specs.Prelude.{◌≡◌};
ghost use Rattle.artifact_forms.specs.Files.{file_of};

use crate::files::File;
use crate::names::artifact;
use crate::parents::read_parent;
use artifacts::{HashedBytes, NewArtifact};
use field_kinds::FormBeside;
use json_fields::{ReadFault, object, required};
use names_realms::{ArtifactName, Parent};
use serde_json::Value;
use std::alloc::Global;

/// The parent that the first request of a batch names, as it is written.
#[derive(Drop)]
pub(crate) struct Leader<'v> {
    pub(crate) parent: &'v str,
}

/// The artifact of a parent.
fn artifact_of(parent: Parent, file: File) -> NewArtifact
    ensures parent { result.name.parent ≡ parent }
    ensures file { file_of result ≡ file }
{
    NewArtifact {
        name: ArtifactName {
            parent,
            artifact: file.id,
        },
        content_type: file.content_type,
        contents: HashedBytes::of(file.contents),
        said_size: file.said_size,
        said_hash: file.said_hash,
    }
}

impl<'v> FormBeside<Leader<'v>> for NewArtifact {
    ghost use Rattle.artifact_forms.specs.Batches.{an_element, IsElement};

    ghost fault = { λ leader. an_element leader.parent.now };

    ghost means = { λ _ d a. IsElement d a };

    #[tactic(auto, unfolding(crate::proofs::Opened::fields))]
    fn read_beside(
        alloc: Global,
        context: &Leader<'v>,
        value: &Value,
    ) -> Result<NewArtifact, ReadFault> {
        object(alloc, value)?;
        let parent = read_parent(alloc, context.parent, value)?;
        match required::<File>(alloc, value, artifact()) {
            Ok(file) => Ok(artifact_of(parent, file)),
            Err(fault) => Err(fault),
        }
    }
}
