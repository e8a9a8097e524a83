//! What is written of artifacts, and of batches of them.
ghost use Rattle.std.specs.Prelude.{◌≡◌, ◌++◌, ◌∷◌, [], Some, None, IfOk, OnOk, decimal, map, option_map, string_bytes};
ghost use Rattle.base64.specs.Engines.{standard};
ghost use Rattle.base64.specs.GeneralPurpose.{encode_of};
ghost use Rattle.serde_json.specs.Data.{string};
ghost use Rattle.serde_json.specs.View.{view, members_view};
ghost use Rattle.names_realms.specs.Parents.{parent_name};
ghost use Rattle.json_fields.specs.Writing.{list_data};
ghost use Rattle.form_fields.specs.Members.{put_some, put_all, object_of};
ghost use Rattle.result_forms.specs.Shown.{as_text, unless_empty};
ghost use Rattle.artifact_forms.specs.Batches.{element_data};
ghost use Rattle.artifact_forms.specs.Files.{file_of, file_data, file_members};
ghost use Rattle.artifact_forms.specs.Names.{request_id, requests, size_bytes, hash};
ghost use Rattle.artifact_forms.specs.Hashes.{hash_text};

use crate::hashes::hash_text;
use crate::names::{
    artifact, artifact_id, content_type, contents, hash, parent, request_id, requests, size_bytes,
};
use artifacts::NewArtifact;
use base64::engine::general_purpose::STANDARD;
use field_kinds::{LimitedText, RequestId};
use json_fields::{Name, SpelledOut, put};
use serde_json::{Map, Value};
use std::alloc::{AllocError, Global};
use std::str::from_utf8;

/// Puts a text under a name.
pub(crate) fn put_text(
    alloc: Global,
    map: &mut Map<String, Value>,
    name: Name,
    text: String,
) -> Result<(), AllocError>
    ensures { OnOk result (members_view map.new.entries
        ≡ put_some name (Some (string (string_bytes text))) (members_view map.old.entries)) }
{
    put(alloc, map, &name, Value::String(text))
}

/// Puts a text under a name, unless it is empty.
pub(crate) fn put_unless_empty(
    alloc: Global,
    map: &mut Map<String, Value>,
    name: Name,
    text: String,
) -> Result<(), AllocError>
    ensures { OnOk result (members_view map.new.entries
        ≡ put_some name (unless_empty (string_bytes text)) (members_view map.old.entries)) }
{
    if text.is_empty() {
        return Ok(());
    }
    put_text(alloc, map, name, text)
}

/// The text of bytes: the empty one where they aren't UTF-8.
fn text_of(bytes: &[u8]) -> &str
    ensures { result.now ≡ as_text bytes.now }
{
    match from_utf8(bytes) {
        Ok(text) => text,
        Err(_) => "",
    }
}

/// Puts the text of bytes under a name, unless it is empty.
pub(crate) fn put_bytes(
    alloc: Global,
    map: &mut Map<String, Value>,
    name: Name,
    bytes: &[u8],
) -> Result<(), AllocError>
    ensures { OnOk result (members_view map.new.entries
        ≡ put_some name (unless_empty (as_text bytes.now)) (members_view map.old.entries)) }
{
    let text = String::from_str(alloc, text_of(bytes))?;
    put_unless_empty(alloc, map, name, text)
}

/// Puts how many bytes there are, where that is said.
fn put_size(
    alloc: Global,
    map: &mut Map<String, Value>,
    size: Option<u64>,
) -> Result<(), AllocError>
    ensures { OnOk result (members_view map.new.entries ≡ put_some size_bytes
        (option_map (λ n. string (decimal n)) size) (members_view map.old.entries)) }
{
    match size {
        Some(size) => {
            let text = format!(in alloc; "{size}")?;
            put_text(alloc, map, size_bytes(), text)
        }
        None => Ok(()),
    }
}

/// Puts a hash, where one is said.
fn put_hash(
    alloc: Global,
    map: &mut Map<String, Value>,
    said: &Option<[u8; 32]>,
) -> Result<(), AllocError>
    ensures { OnOk result (members_view map.new.entries ≡ put_some hash
        (option_map (λ h. string (hash_text h)) said.now) (members_view map.old.entries)) }
{
    match said {
        Some(bytes) => {
            let text = hash_text(alloc, bytes)?;
            put_text(alloc, map, hash(), text)
        }
        None => Ok(()),
    }
}

/// What is written of an artifact beside its parent.
fn file_value(alloc: Global, a: &NewArtifact) -> Result<Value, AllocError>
    ensures { IfOk result (λ v. view v ≡ file_data (file_of a.now)) }
{
    let mut map = Map::new(alloc);
    put_hash(alloc, &mut map, &a.said_hash)?;
    put_size(alloc, &mut map, a.said_size)?;
    let encoded = STANDARD.encode(alloc, a.contents.as_slice())?;
    put_unless_empty(alloc, &mut map, contents(), encoded)?;
    put_bytes(alloc, &mut map, content_type(), a.content_type.as_slice())?;
    let id = String::from_str(alloc, a.name.artifact.as_str())?;
    put_text(alloc, &mut map, artifact_id(), id)?;
    Ok(Value::Object(map))
}

/// What is written of an artifact in a batch.
fn element_value(alloc: Global, a: &NewArtifact) -> Result<Value, AllocError>
    ensures { IfOk result (λ v. view v ≡ element_data a.now) }
{
    let mut map = Map::new(alloc);
    let file = file_value(alloc, a)?;
    put(alloc, &mut map, &artifact(), file)?;
    let text = a.name.parent.to_spelling(alloc)?;
    put_text(alloc, &mut map, parent(), text)?;
    Ok(Value::Object(map))
}

/// Appends what is written of an artifact.
fn add_element(alloc: Global, list: &mut Vec<Value>, a: &NewArtifact) -> Result<(), AllocError>
    ensures { OnOk result (map view list.new.items
        ≡ map view list.old.items ++ element_data a.now ∷ []) }
{
    let value = element_value(alloc, a)?;
    list.push(value)?;
    Ok(())
}

/// The list of artifacts.
fn list_value(alloc: Global, rows: &[NewArtifact]) -> Result<Value, AllocError>
    ensures { IfOk result (λ v. view v ≡ list_data element_data rows.now) }
{
    let mut list = Vec::with_capacity(alloc, rows.len())?;
    for row in rows {
        add_element(alloc, &mut list, row)?;
    }
    Ok(Value::Array(list))
}

/// Puts the number of a request, where it has one.
fn put_number(
    alloc: Global,
    map: &mut Map<String, Value>,
    number: &Option<LimitedText<RequestId>>,
) -> Result<(), AllocError>
    ensures { OnOk result (members_view map.new.entries ≡ put_some request_id
        (option_map string number.now) (members_view map.old.entries)) }
{
    match number {
        Some(text) => {
            let text = String::from_str(alloc, text.as_str())?;
            put_text(alloc, map, request_id(), text)
        }
        None => Ok(()),
    }
}

/// What is written of a batch of artifacts.
pub(crate) fn batch_value(
    alloc: Global,
    number: &Option<LimitedText<RequestId>>,
    rows: &[NewArtifact],
) -> Result<Value, AllocError>
    ensures { IfOk result (λ v. view v ≡ object_of (
        (request_id, option_map string number.now)
        ∷ (requests, Some (list_data element_data rows.now)) ∷ [])) }
{
    let mut map = Map::new(alloc);
    let rows = list_value(alloc, rows)?;
    put(alloc, &mut map, &requests(), rows)?;
    put_number(alloc, &mut map, number)?;
    Ok(Value::Object(map))
}
