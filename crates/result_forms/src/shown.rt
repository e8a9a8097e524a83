//! The values of a row, as JSON: none where they are empty.
ghost use Rattle.std.specs.Prelude.{◌≡◌, Some, IfOk, OnOk, fold, option_map};
ghost use Rattle.serde_json.specs.Data.{string, object, no_members};
ghost use Rattle.serde_json.specs.View.{view, members_view};
ghost use Rattle.field_kinds.specs.TextKinds.Statuses.{status_name};
ghost use Rattle.result_forms.specs.Shown.{as_text, text_shown, flag_shown, tags_shown, put_pair, variant_shown};
ghost use Rattle.result_forms.specs.Shown.{reason_shown, properties_shown, right_object};

use crate::members::{Shown, list_value};
use crate::names::primary_error_message;
use field_kinds::{Properties, StatusName, tag_value};
use form_fields::put_some;
use json_fields::{Form, ReadFault, SpelledOut, Written, write_text};
use names_realms::{Pair, Status};
use serde_json::{Map, Value};
use std::alloc::{AllocError, Global};
use std::str::from_utf8;

/// The text of bytes: none where they aren't UTF-8.
fn text_of(bytes: &[u8]) -> &str
    ensures { result.now ≡ as_text bytes.now }
{
    match from_utf8(bytes) {
        Ok(text) => text,
        Err(_) => "",
    }
}

/// A text.
pub fn text_value(alloc: Global, text: &str) -> Result<Option<Value>, AllocError>
    ensures { IfOk result (λ o. option_map view o ≡ Some (string text.now)) }
{
    let value = Value::try_from_str(alloc, text)?;
    Ok(Some(value))
}

/// The text of bytes, none where it is empty.
pub fn bytes_value(alloc: Global, bytes: &[u8]) -> Result<Option<Value>, AllocError>
    ensures { IfOk result (λ o. option_map view o ≡ text_shown bytes.now) }
{
    let text = text_of(bytes);
    if text.is_empty() {
        return Ok(None);
    }
    text_value(alloc, text)
}

/// A flag, none where it is off.
pub fn flag_value(on: bool) -> Option<Value>
    ensures { option_map view result ≡ flag_shown on }
{
    if on { Some(Value::Bool(true)) } else { None }
}

/// The name of a status.
pub fn status_value(alloc: Global, status: Status) -> Result<Option<Value>, AllocError>
    ensures { IfOk result (λ o. option_map view o ≡ Some (string (status_name status))) }
{
    let value = StatusName { status }.write(alloc)?;
    Ok(Some(value))
}

/// A value with one text, where there is one.
pub fn spelled_value<T: SpelledOut>(
    alloc: Global,
    x: &Option<T>,
) -> Result<Option<Value>, AllocError>
    ensures { IfOk result (λ o. option_map view o
        ≡ option_map (λ a. string (T.spelling a)) x.now) }
{
    match x {
        Some(x) => {
            let value = write_text(alloc, x)?;
            Ok(Some(value))
        }
        None => Ok(None),
    }
}

impl Shown for Pair {
    ghost use Rattle.result_forms.specs.Shown.{pair_data};

    ghost shows = { pair_data };

    fn value(&self, alloc: Global) -> Result<Value, AllocError> {
        let key = text_of(self.key.as_slice());
        let text = text_of(self.value.as_slice());
        tag_value(alloc, key, text)
    }
}

/// The list of tags, none where there are none.
pub fn tags_value(alloc: Global, tags: &[Pair]) -> Result<Option<Value>, AllocError>
    ensures { IfOk result (λ o. option_map view o ≡ tags_shown tags.now) }
{
    if tags.is_empty() {
        return Ok(None);
    }
    let value = list_value(alloc, tags)?;
    Ok(Some(value))
}

/// Puts the value of a pair under its key.
fn put_pair(alloc: Global, map: &mut Map<String, Value>, pair: &Pair) -> Result<(), AllocError>
    ensures { OnOk result (members_view map.new.entries
        ≡ put_pair (members_view map.old.entries) pair.now) }
{
    let key = text_of(pair.key.as_slice());
    let text = text_of(pair.value.as_slice());
    let value = Value::try_from_str(alloc, text)?;
    serde_json::put(map, alloc, key, value)
}

/// The object of pairs.
fn pairs_value(alloc: Global, pairs: &[Pair]) -> Result<Value, AllocError>
    ensures { IfOk result (λ v. view v ≡ object (fold put_pair no_members pairs.now)) }
{
    let mut map = Map::new(alloc);
    for pair in pairs {
        put_pair(alloc, &mut map, pair)?;
    }
    Ok(Value::Object(map))
}

/// The object of a variant, none where it has no pairs.
pub fn variant_value(alloc: Global, pairs: &[Pair]) -> Result<Option<Value>, AllocError>
    ensures { IfOk result (λ o. option_map view o ≡ variant_shown pairs.now) }
{
    if pairs.is_empty() {
        return Ok(None);
    }
    let def = pairs_value(alloc, pairs)?;
    let mut map = Map::new(alloc);
    serde_json::put(&mut map, alloc, "def", def)?;
    Ok(Some(Value::Object(map)))
}

/// The reason of a failure by its message, none where that is empty.
pub fn reason_value(alloc: Global, message: &[u8]) -> Result<Option<Value>, AllocError>
    ensures { IfOk result (λ o. option_map view o ≡ reason_shown message.now) }
{
    match bytes_value(alloc, message)? {
        Some(text) => {
            let mut map = Map::new(alloc);
            put_some(alloc, &mut map, primary_error_message(), Some(text))?;
            Ok(Some(Value::Object(map)))
        }
        None => Ok(None),
    }
}

/// The value, where it is an object that has members and is one of properties.
fn right_object(alloc: Global, value: Value) -> Result<Option<Value>, AllocError>
    ensures { IfOk result (λ o. option_map view o ≡ right_object (view value)) }
{
    match Properties::read(alloc, &value) {
        Ok(_) => {
            if Properties::is_empty(&value) {
                Ok(None)
            } else {
                Ok(Some(value))
            }
        }
        Err(ReadFault::Field(_)) => Ok(None),
        Err(ReadFault::Memory) => Err(AllocError),
    }
}

/// The object that a text of properties is, none where it is of none.
pub fn properties_value(alloc: Global, text: &[u8]) -> Result<Option<Value>, AllocError>
    ensures { IfOk result (λ o. option_map view o ≡ properties_shown text.now) }
{
    if text.is_empty() {
        return Ok(None);
    }
    match Value::from_str(alloc, text_of(text)) {
        Ok(value) => right_object(alloc, value),
        Err(error) => {
            if error.is_memory() {
                Err(AllocError)
            } else {
                Ok(None)
            }
        }
    }
}
