//! An artifact as a line of a list.
ghost use Rattle.std.specs.Prelude.{◌≡◌, ◌++◌, true, false, Some, OnOk, codes, string_bytes};
ghost use Rattle.serde_json.specs.Data.{string};
ghost use Rattle.serde_json.specs.Written.{compact_text};
ghost use Rattle.json_fields.specs.NamesRealms.ArtifactNames.{artifact_name};
ghost use Rattle.artifact_forms.specs.ResultForms.Shown.{as_text, text_shown};
ghost use Rattle.artifact_replies.specs.Replies.{size_shown, line_data};
ghost use Rattle.artifact_replies.specs.Texts.{member_text};

use crate::texts::{append, append_text};
use artifacts::Artifact;
use json_fields::{ArtifactId, ArtifactName, SpelledOut};
use std::alloc::{AllocError, Global};
use std::str::from_utf8;

/// The text of bytes: the empty one where they aren't UTF-8.
fn text_of(bytes: &[u8]) -> &str
    ensures { result.now ≡ as_text bytes.now }
{
    match from_utf8(bytes) {
        Ok(text) => text,
        Err(_) => "",
    }
}

/// Begins an object with an artifact's id.
pub(crate) fn append_id(alloc: Global, out: &mut String, id: &ArtifactId) -> Result<(), AllocError>
    ensures { OnOk result (string_bytes out.new ≡ string_bytes out.old ++ codes "{"
        ++ member_text false (codes "artifactId") (Some (string id.now))) }
{
    append(out, "{")?;
    append_text(alloc, out, false, "artifactId", id.as_str())?;
    Ok(())
}

/// Appends of which kind an artifact's contents are, where that is said.
pub(crate) fn append_type(alloc: Global, out: &mut String, kind: &[u8]) -> Result<(), AllocError>
    ensures { OnOk result (string_bytes out.new ≡ string_bytes out.old
        ++ member_text true (codes "contentType") (text_shown kind.now)) }
{
    let text = text_of(kind);
    if text.is_empty() {
        return Ok(());
    }
    append_text(alloc, out, true, "contentType", text)
}

/// Appends an artifact's name.
pub(crate) fn append_name(
    alloc: Global,
    out: &mut String,
    name: &ArtifactName,
) -> Result<(), AllocError>
    ensures { OnOk result (string_bytes out.new ≡ string_bytes out.old
        ++ member_text true (codes "name") (Some (string (artifact_name name.now)))) }
{
    let text = name.to_spelling(alloc)?;
    append_text(alloc, out, true, "name", text.as_str())
}

/// Appends how many bytes an artifact has, unless it has none.
pub(crate) fn append_size(alloc: Global, out: &mut String, size: usize) -> Result<(), AllocError>
    ensures { OnOk result (string_bytes out.new ≡ string_bytes out.old
        ++ member_text true (codes "sizeBytes") (size_shown size)) }
{
    if size == 0 {
        return Ok(());
    }
    let text = format!(in alloc; "{size}")?;
    append_text(alloc, out, true, "sizeBytes", text.as_str())
}

/// Appends the line of an artifact.
pub(crate) fn append_line(alloc: Global, out: &mut String, row: &Artifact) -> Result<(), AllocError>
    ensures { OnOk result (string_bytes out.new
        ≡ string_bytes out.old ++ compact_text (line_data row.now)) }
{
    append_id(alloc, out, &row.name.artifact)?;
    append_type(alloc, out, row.content_type.as_slice())?;
    append_name(alloc, out, &row.name)?;
    append_size(alloc, out, row.contents.len())?;
    append(out, "}")?;
    Ok(())
}
