//! Words for fields of an object: a status that may be unset, and a field `f` with a default.
use crate::faults::Fault;
use crate::telling::{told_word, written};
use field_kinds::{
    Defaulted, Flag, PageSize, VariantMap, Whole, optional_filled, or_default, write_unless_default,
};
use json_fields::{Name, read_json};
use serde_json::{Map, Value};
use std::alloc::Global;
use text_kinds::{LimitedText, Message, StatusName};

/// What such a word makes of a body, none for another word.
pub(crate) fn told(alloc: Global, word: &str, body: &[u8]) -> Result<Option<Vec<u8>>, Fault> {
    let told = match word {
        "status-field" => status_field(alloc, body)?,
        "default-flag" => default_field::<Flag>(alloc, body)?,
        "default-page-size" => default_field::<Whole<PageSize>>(alloc, body)?,
        "default-message" => default_field::<LimitedText<Message>>(alloc, body)?,
        "default-variant" => default_field::<VariantMap>(alloc, body)?,
        _ => return Ok(None),
    };
    Ok(Some(told))
}

/// What is written of the status, or the word `unset`.
fn status_field(alloc: Global, body: &[u8]) -> Result<Vec<u8>, Fault> {
    let value = read_json(alloc, body)?;
    match optional_filled::<StatusName>(alloc, &value, Name::word("status"))? {
        Some(status) => Ok(written(alloc, &status)?),
        None => Ok(told_word(alloc, "unset")?),
    }
}

/// An object with what is written of the field, where it isn't left out.
fn default_field<T: Defaulted>(alloc: Global, body: &[u8]) -> Result<Vec<u8>, Fault> {
    let value = read_json(alloc, body)?;
    let x = or_default::<T>(alloc, &value, Name::word("f"))?;
    let mut map = Map::new(alloc);
    write_unless_default(alloc, &mut map, Name::word("f"), &x)?;
    Ok(Value::Object(map).to_vec(alloc)?)
}
