//! What stands at a key of a table, and what is noted where it isn't of its kind.
ghost use Rattle.std.specs.Prelude.{◌≡◌, ℕ, [], IfOk, OnOk, Some, None, option_map, unwrap_or, is_some};
ghost use Rattle.std.specs.Fmt.{decimal};
ghost use Rattle.toml.specs.Data.{as_str, as_array, as_table, get_member};
ghost use Rattle.toml.specs.View.{view, table_view, array_view};
ghost use Rattle.policy_tables.specs.Findings.{joined, least_with};
ghost use Rattle.policy_document.specs.Document.{is_known, unknown_keys, text_at, list_at, text_of, text_findings};
ghost use Rattle.policy_document.specs.Document.{missing, item_texts, item_findings, texts_of, texts_findings};
ghost use Rattle.policy_document.specs.Document.{wrong_kind, optional_texts_findings, table_at};

use crate::shape::Shape;
use lists::Listed;
use name_parts::Bytes;
use policy_tables::Notes;
use std::alloc::{AllocError, Global};
use toml::value::Array;
use toml::{Table, Value};

/// No bytes.
fn no_bytes(alloc: Global) -> Bytes
    ensures { result ≡ [] }
{
    Bytes::new(Vec::new(alloc))
}

/// The text at a key.
fn find_text<'a>(table: &'a Table, key: &str) -> Option<&'a str>
    ensures { option_map (λ s. s.now) result ≡ text_at key.now (table_view table.now) }
{
    match table.get(key) {
        Some(value) => value.as_str(),
        None => None,
    }
}

/// The list at a key.
pub(crate) fn find_list<'a>(table: &'a Table, key: &str) -> Option<&'a Array>
    ensures { option_map (λ a. array_view a.now) result ≡ list_at key.now (table_view table.now) }
{
    match table.get(key) {
        Some(value) => value.as_array(),
        None => None,
    }
}

/// The table at a key.
pub(crate) fn find_table<'a>(table: &'a Table, key: &str) -> Option<&'a Table>
    ensures { option_map (λ t. table_view t.now) result ≡ table_at key.now (table_view table.now) }
{
    match table.get(key) {
        Some(value) => value.as_table(),
        None => None,
    }
}

/// Whether there is something at a key.
fn has_key(table: &Table, key: &str) -> bool
    ensures { result ≡ is_some (get_member key.now (table_view table.now)) }
{
    match table.get(key) {
        Some(_) => true,
        None => false,
    }
}

/// Reads the text at a key. Notes where there is none.
pub fn read_text(notes: &mut Notes, table: &Table, key: &str) -> Result<Bytes, AllocError>
    ensures text { IfOk result (λ text. text ≡ text_of key.now (table_view table.now)) }
    ensures path { OnOk result (notes.new.path ≡ notes.old.path) }
    ensures least { OnOk result
        (notes.new.least ≡ least_with notes.old.least
        (text_findings notes.old.path key.now (table_view table.now))) }
{
    match find_text(table, key) {
        Some(text) => Bytes::from_slice(notes.alloc(), text.as_bytes()),
        None => {
            notes.note_key(key.as_bytes())?;
            Ok(no_bytes(notes.alloc()))
        }
    }
}

/// Reads the text at a place of a list. Notes where it is none.
fn read_item(notes: &mut Notes, place: usize, value: &Value) -> Result<Bytes, AllocError>
    ensures text { IfOk result (λ text. text ≡ unwrap_or (as_str (view value.now)) []) }
    ensures path { OnOk result (notes.new.path ≡ notes.old.path) }
    ensures least { OnOk result
        (notes.new.least ≡ least_with notes.old.least
        (missing (joined notes.old.path (decimal place)) (as_str (view value.now)))) }
{
    match value.as_str() {
        Some(text) => Bytes::from_slice(notes.alloc(), text.as_bytes()),
        None => {
            notes.note_place(place)?;
            Ok(no_bytes(notes.alloc()))
        }
    }
}

/// Reads the texts of a list. Notes each place that holds none.
fn read_items(notes: &mut Notes, array: &Array) -> Result<Vec<Bytes>, AllocError>
    ensures texts { IfOk result (λ texts. texts.items ≡ item_texts (array_view array.now)) }
    ensures path { OnOk result (notes.new.path ≡ notes.old.path) }
    ensures least { OnOk result
        (notes.new.least ≡ least_with notes.old.least
        (item_findings notes.old.path 0 (array_view array.now))) }
{
    let mut texts = Vec::new(notes.alloc());
    for (place, value) in array.iter().enumerate() {
        texts.push(read_item(notes, place, value)?)?;
    }
    Ok(texts)
}

/// Reads the list of texts at a key. Notes where there is none.
#[tactic(auto, using(policy_tables::proofs::PathLemmas::front_of_joined))]
pub(crate) fn read_texts(
    notes: &mut Notes,
    table: &Table,
    key: &str,
) -> Result<Listed<Bytes>, AllocError>
    ensures texts { IfOk result (λ texts. texts ≡ texts_of key.now (table_view table.now)) }
    ensures path { OnOk result (notes.new.path ≡ notes.old.path) }
    ensures least { OnOk result
        (notes.new.least ≡ least_with notes.old.least
        (texts_findings notes.old.path key.now (table_view table.now))) }
{
    match find_list(table, key) {
        Some(array) => {
            let len = notes.enter_key(key.as_bytes())?;
            let texts = read_items(notes, array)?;
            notes.leave(len);
            Ok(Listed::new(texts))
        }
        None => {
            notes.note_key(key.as_bytes())?;
            Ok(Listed::new(Vec::new(notes.alloc())))
        }
    }
}

/// Notes what stands at a key, if anything does.
pub(crate) fn note_if_there(notes: &mut Notes, table: &Table, key: &str) -> Result<(), AllocError>
    ensures path { OnOk result (notes.new.path ≡ notes.old.path) }
    ensures least { OnOk result
        (notes.new.least ≡ least_with notes.old.least
        (wrong_kind (joined notes.old.path key.now) (get_member key.now (table_view table.now)))) }
{
    if has_key(table, key) {
        return notes.note_key(key.as_bytes());
    }
    Ok(())
}

/// Reads the list of texts at a key that may be absent. Notes where something else stands.
#[tactic(auto, using(policy_tables::proofs::PathLemmas::front_of_joined))]
pub(crate) fn read_texts_if_there(
    notes: &mut Notes,
    table: &Table,
    key: &str,
) -> Result<Listed<Bytes>, AllocError>
    ensures texts { IfOk result (λ texts. texts ≡ texts_of key.now (table_view table.now)) }
    ensures path { OnOk result (notes.new.path ≡ notes.old.path) }
    ensures least { OnOk result
        (notes.new.least ≡ least_with notes.old.least
        (optional_texts_findings notes.old.path key.now (table_view table.now))) }
{
    match find_list(table, key) {
        Some(array) => {
            let len = notes.enter_key(key.as_bytes())?;
            let texts = read_items(notes, array)?;
            notes.leave(len);
            Ok(Listed::new(texts))
        }
        None => {
            note_if_there(notes, table, key)?;
            Ok(Listed::new(Vec::new(notes.alloc())))
        }
    }
}

/// Whether a table of this kind may have the key.
fn may_have(shape: Shape, key: &str) -> bool
    ensures { result ≡ is_known shape key.now }
{
    match shape {
        Shape::Document => key == "secret"
            || key == "user"
            || key == "group"
            || key == "role"
            || key == "realm",
        Shape::User => key == "token",
        Shape::Group => key == "members",
        Shape::Role => key == "permissions",
        Shape::Realm => key == "extends" || key == "bindings",
        Shape::Binding => key == "role" || key == "principals",
        Shape::Sink => key == "token" || key == "update_token",
    }
}

/// Notes each key that a table of this kind may not have.
pub fn note_unknown(notes: &mut Notes, shape: Shape, table: &Table) -> Result<(), AllocError>
    ensures path { OnOk result (notes.new.path ≡ notes.old.path) }
    ensures least { OnOk result
        (notes.new.least ≡ least_with notes.old.least
        (unknown_keys shape notes.old.path (table_view table.now))) }
{
    for (key, _) in table {
        if !may_have(shape, key.as_str()) {
            notes.note_key(key.as_bytes())?;
        }
    }
    Ok(())
}
