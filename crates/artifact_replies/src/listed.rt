//! Artifacts of a batch or of a page.
ghost use Rattle.std.specs.Prelude.{◌≡◌, ◌++◌, false, OnOk, codes, map, option_map, string_bytes};
ghost use Rattle.serde_json.specs.Data.{string};
ghost use Rattle.serde_json.specs.Written.{compact_text};
ghost use Rattle.json_fields.specs.Writing.{list_data};
ghost use Rattle.artifact_replies.specs.Replies.{line_data, rows_shown, artifacts_data};
ghost use Rattle.artifact_replies.specs.Texts.{member_text};

use crate::lines::append_line;
use crate::texts::{append, append_comma, append_key, append_text};
use artifacts::Artifact;
use std::alloc::{AllocError, Global};
use std::marker::Model;

/// The artifacts of a batch or of a page, in their order. Contracts see the values that are shown.
#[derive(Drop)]
pub struct ShownArtifacts<'r> {
    pub rows: Vec<&'r Artifact>,
    /// The token of the next page, where there is one.
    pub next: Option<String>,
}

impl<'r> Model for ShownArtifacts<'r> {
    ghost use Rattle.std.specs.Prelude.{map, option_map, string_bytes};
    ghost use Rattle.artifact_replies.specs.Replies.{ArtifactsShown};

    ghost Value = { ArtifactsShown };

    ghost view = { λ s. record {
      rows = map (λ row. row.now) s.rows.items;
      next = option_map string_bytes s.next;
    } };
}

/// Appends the list of artifacts.
fn append_rows(alloc: Global, out: &mut String, rows: &[&Artifact]) -> Result<(), AllocError>
    ensures { OnOk result (string_bytes out.new ≡ string_bytes out.old
        ++ compact_text (list_data line_data (map (λ row. row.now) rows.now))) }
{
    append(out, "[")?;
    for i in 0..rows.len() {
        append_comma(out, i > 0)?;
        append_line(alloc, out, rows[i])?;
    }
    append(out, "]")?;
    Ok(())
}

/// Appends the artifacts as a member, where there are any.
fn append_list(alloc: Global, out: &mut String, rows: &[&Artifact]) -> Result<(), AllocError>
    ensures { OnOk result (string_bytes out.new ≡ string_bytes out.old ++ member_text false
        (codes "artifacts") (rows_shown (map (λ row. row.now) rows.now))) }
{
    if rows.is_empty() {
        return Ok(());
    }
    append_key(out, false, "artifacts")?;
    append_rows(alloc, out, rows)?;
    Ok(())
}

/// Appends the token of the next page, where there is one.
fn append_next(
    alloc: Global,
    out: &mut String,
    later: bool,
    next: &Option<String>,
) -> Result<(), AllocError>
    ensures { OnOk result (string_bytes out.new ≡ string_bytes out.old ++ member_text later
        (codes "nextPageToken") (option_map string (option_map string_bytes next.now))) }
{
    match next {
        Some(text) => {
            append_text(alloc, out, later, "nextPageToken", text.as_str())?;
            Ok(())
        }
        None => Ok(()),
    }
}

/// Appends the JSON text of an object with artifacts, each as a line, and with the token of the
/// next page where there is one. `Err` where there is no memory for it; some of it may then stand
/// there.
pub fn append_artifacts(
    alloc: Global,
    out: &mut String,
    shown: &ShownArtifacts,
) -> Result<(), AllocError>
    ensures { OnOk result (string_bytes out.new
        ≡ string_bytes out.old ++ compact_text (artifacts_data shown.now)) }
{
    append(out, "{")?;
    let rows = shown.rows.as_slice();
    append_list(alloc, out, rows)?;
    append_next(alloc, out, !rows.is_empty(), &shown.next)?;
    append(out, "}")?;
    Ok(())
}
