//! Properties of a result.
ghost use Rattle.std.specs.Prelude.{◌≡◌, ◌≤◌, None, length, IfOk, IfErr};
ghost use Rattle.std.specs.Str.{IsUtf8};
ghost use Rattle.serde_json.specs.View.{view};
ghost use Rattle.serde_json.specs.Written.{compact_text};
ghost use Rattle.json_fields.specs.Faults.{Says};
ghost use Rattle.json_fields.specs.Kinds.{an_object};
ghost use Rattle.field_kinds.specs.Properties.{properties_fault, IsKept};

use crate::trees::{has_float, is_within};
use json_fields::{Bytes, FaultKind, Form, ReadFault, Why, Written};
use serde_json::Value;
use std::alloc::{AllocError, Global};
use std::marker::Model;

/// An object as its compact text, of at most 8,192 bytes.
#[derive(Debug, Drop)]
pub struct Properties {
    text: String,
}

impl Model for Properties {
    ghost use Rattle.std.specs.Prelude.{◌≤◌, ℕ, List, length, string_bytes};
    ghost use Rattle.field_kinds.specs.Properties.{IsKept};

    ghost Value = { List ℕ };

    ghost view = { λ p. string_bytes p.text };

    ghost invariant = { λ p. (length (string_bytes p.text) ≤ 8192) × IsKept (string_bytes p.text) };
}

impl Properties {
    /// The compact text.
    pub fn as_str(&self) -> &str
        ensures text { result.now ≡ self.now }
        ensures few { length self.now ≤ 8192 }
        ensures kept { IsKept self.now }
    {
        self.text.as_str()
    }

    /// The bytes of the compact text, moved out.
    pub fn into_bytes(self) -> Bytes
        ensures bytes { result ≡ self }
        ensures utf8 { IsUtf8 self }
        ensures kept { IsKept self }
    {
        let _utf8 = self.text.as_str();
        Bytes::new(self.text.into_bytes())
    }
}

/// Keeps an object.
fn kept(alloc: Global, value: &Value) -> Result<Properties, ReadFault>
    requires { an_object (view value.now) ≡ None }
    ensures ok { IfOk result (λ p. (properties_fault (view value.now) ≡ None)
        × (p ≡ compact_text (view value.now))) }
    ensures err { IfErr result (λ e. Says e (properties_fault (view value.now))) }
{
    if has_float(value) {
        return Err(ReadFault::here(alloc, FaultKind::BadValue(Why::NotWhole)));
    }
    let text = value.to_string(alloc)?;
    if text.len() > 8192 {
        return Err(ReadFault::here(alloc, FaultKind::BadValue(Why::TooLong(text.len()))));
    }
    if !is_within(64, value) {
        return Err(ReadFault::here(alloc, FaultKind::BadValue(Why::TooDeep)));
    }
    Ok(Properties { text })
}

impl Form for Properties {
    ghost use Rattle.field_kinds.specs.Properties.{a_properties, IsCompact, empty_object};

    ghost fault = { a_properties };

    ghost means = { IsCompact };

    ghost empty = { empty_object };

    fn is_empty(value: &Value) -> bool {
        match value {
            Value::Object(map) => map.is_empty(),
            _ => false,
        }
    }

    fn read(alloc: Global, value: &Value) -> Result<Properties, ReadFault> {
        match value {
            Value::Object(_) => kept(alloc, value),
            _ => Err(ReadFault::here(alloc, FaultKind::WrongKind)),
        }
    }
}

impl Written for Properties {
    ghost use Rattle.field_kinds.specs.Properties.{value_in, is_braces};

    ghost json = { value_in };

    ghost blank = { is_braces };

    fn write(&self, alloc: Global) -> Result<Value, AllocError> {
        // A text that was kept is always read, so that only memory may be wanting.
        match Value::from_str(alloc, self.as_str()) {
            Ok(value) => Ok(value),
            Err(_) => Err(AllocError),
        }
    }
}
