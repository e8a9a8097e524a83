//! What a request says of an artifact beside its parent.

use crate::hashes::read_hash;
use crate::names::{artifact_id, content_type, contents, hash, size_bytes};
use crate::values::{read_contents, read_size, read_type};
use json_fields::{Form, ReadFault, object, required};
use lists::Bytes;
use names_realms::ArtifactId;
use serde_json::Value;
use std::alloc::Global;

/// An artifact, of which the parent stands beside it.
#[derive(Drop)]
pub(crate) struct File {
    pub(crate) id: ArtifactId,
    pub(crate) content_type: Bytes,
    pub(crate) contents: Bytes,
    pub(crate) said_size: Option<u64>,
    pub(crate) said_hash: Option<[u8; 32]>,
}

impl Form for File {
    ghost use Rattle.json_fields.specs.Kinds.{never_empty};
    ghost use Rattle.artifact_forms.specs.Files.{a_file, IsFile};

    ghost fault = { a_file };

    ghost means = { IsFile };

    ghost empty = { never_empty };

    fn is_empty(_value: &Value) -> bool {
        false
    }

    #[tactic(auto, unfolding(crate::proofs::Opened::fields))]
    fn read(alloc: Global, value: &Value) -> Result<File, ReadFault> {
        object(alloc, value)?;
        let id = required(alloc, value, artifact_id())?;
        let content_type = read_type(alloc, value, content_type())?;
        let contents = read_contents(alloc, value, contents())?;
        let said_size = read_size(alloc, value, size_bytes())?;
        match read_hash(alloc, value, hash()) {
            Ok(said_hash) => Ok(File {
                id,
                content_type,
                contents,
                said_size,
                said_hash,
            }),
            Err(fault) => Err(fault),
        }
    }
}
