//! An artifact whole, with its contents.
ghost use Rattle.std.specs.Prelude.{◌≡◌, ◌++◌, true, Some, OnOk, codes, string_bytes};
ghost use Rattle.serde_json.specs.Data.{string};
ghost use Rattle.serde_json.specs.Written.{compact_text};
ghost use Rattle.base64.specs.Engines.{standard};
ghost use Rattle.base64.specs.GeneralPurpose.{encode_of};
ghost use Rattle.artifact_forms.specs.Files.{contents_shown};
ghost use Rattle.artifact_forms.specs.Hashes.{hash_text};
ghost use Rattle.artifact_replies.specs.Replies.{artifact_data};
ghost use Rattle.artifact_replies.specs.Texts.{member_text};

use crate::lines::{append_id, append_name, append_size, append_type};
use crate::texts::{append, append_key, append_text};
use artifact_forms::hash_text;
use artifacts::Artifact;
use base64::engine::general_purpose::STANDARD;
use std::alloc::{AllocError, Global};

/// Appends the base64 of bytes.
fn append_encoded(out: &mut String, bytes: &[u8]) -> Result<(), AllocError>
    ensures { OnOk result
        (string_bytes out.new ≡ string_bytes out.old ++ encode_of standard bytes.now) }
{
    STANDARD.encode_string(bytes, out)
}

/// Appends contents in base64, unless there are none. They are encoded straight into the text.
fn append_contents(out: &mut String, bytes: &[u8]) -> Result<(), AllocError>
    ensures { OnOk result (string_bytes out.new ≡ string_bytes out.old
        ++ member_text true (codes "contents") (contents_shown bytes.now)) }
{
    if bytes.is_empty() {
        return Ok(());
    }
    append_key(out, true, "contents")?;
    append(out, "\"")?;
    append_encoded(out, bytes)?;
    append(out, "\"")?;
    Ok(())
}

/// Appends a hash.
fn append_hash(alloc: Global, out: &mut String, hash: &[u8; 32]) -> Result<(), AllocError>
    ensures { OnOk result (string_bytes out.new ≡ string_bytes out.old
        ++ member_text true (codes "hash") (Some (string (hash_text hash.now)))) }
{
    let text = hash_text(alloc, hash)?;
    append_text(alloc, out, true, "hash", text.as_str())
}

/// Appends the JSON text of an artifact whole, with its contents in base64 and their hash. `Err`
/// where there is no memory for it; some of it may then stand there.
pub fn append_artifact(alloc: Global, out: &mut String, row: &Artifact) -> Result<(), AllocError>
    ensures { OnOk result (string_bytes out.new
        ≡ string_bytes out.old ++ compact_text (artifact_data row.now)) }
{
    append_id(alloc, out, &row.name.artifact)?;
    append_type(alloc, out, row.content_type.as_slice())?;
    append_contents(out, row.contents.as_slice())?;
    append_hash(alloc, out, &row.hash)?;
    append_name(alloc, out, &row.name)?;
    append_size(alloc, out, row.contents.len())?;
    append(out, "}")?;
    Ok(())
}
