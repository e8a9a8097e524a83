//! Fields that the profile leaves out.
ghost use Rattle.std.specs.Prelude.{◌≡◌};
ghost use Rattle.serde_json.specs.View.{view};
ghost use Rattle.field_kinds.specs.OutsideProfile.{left_out, an_empty_message, an_empty_text};
ghost use Rattle.json_fields.specs.Faults.{Says};

use json_fields::{FaultKind, Form, ReadFault, Why, Written};
use serde_json::{Map, Value};
use std::alloc::{AllocError, Global};

fn left_out(alloc: Global) -> ReadFault
    ensures { Says result left_out }
{
    ReadFault::here(alloc, FaultKind::BadValue(Why::OutOfProfile))
}

/// A message or a mask that the profile leaves out: it may be the empty object or the empty text,
/// else `OutOfProfile`.
#[derive(Debug, Drop)]
pub struct NoMessage;

impl Form for NoMessage {
    ghost use Rattle.std.specs.Prelude.{⊤};
    ghost use Rattle.json_fields.specs.Kinds.{never_empty};

    ghost fault = { an_empty_message };

    ghost means = { λ _ _. ⊤ };

    ghost empty = { never_empty };

    fn is_empty(_value: &Value) -> bool {
        false
    }

    fn read(alloc: Global, value: &Value) -> Result<NoMessage, ReadFault> {
        match value {
            Value::Null => Ok(NoMessage),
            Value::String(text) => if text.is_empty() {
                Ok(NoMessage)
            } else {
                Err(left_out(alloc))
            },
            Value::Object(map) => if map.is_empty() {
                Ok(NoMessage)
            } else {
                Err(left_out(alloc))
            },
            _ => Err(left_out(alloc)),
        }
    }
}

impl Written for NoMessage {
    ghost use Rattle.std.specs.Prelude.{false};
    ghost use Rattle.serde_json.specs.Data.{object, no_members};

    ghost json = { λ _. object no_members };

    ghost blank = { λ _. false };

    fn write(&self, alloc: Global) -> Result<Value, AllocError> {
        Ok(Value::Object(Map::new(alloc)))
    }
}

/// A text that the profile leaves out: it may be the empty one, else `OutOfProfile`.
#[derive(Debug, Drop)]
pub struct NoText;

impl Form for NoText {
    ghost use Rattle.std.specs.Prelude.{⊤};
    ghost use Rattle.json_fields.specs.Kinds.{never_empty};

    ghost fault = { an_empty_text };

    ghost means = { λ _ _. ⊤ };

    ghost empty = { never_empty };

    fn is_empty(_value: &Value) -> bool {
        false
    }

    fn read(alloc: Global, value: &Value) -> Result<NoText, ReadFault> {
        match value {
            Value::Null => Ok(NoText),
            Value::String(text) => if text.is_empty() {
                Ok(NoText)
            } else {
                Err(left_out(alloc))
            },
            _ => Err(left_out(alloc)),
        }
    }
}

impl Written for NoText {
    ghost use Rattle.std.specs.Prelude.{false, []};
    ghost use Rattle.serde_json.specs.Data.{string};

    ghost json = { λ _. string [] };

    ghost blank = { λ _. false };

    fn write(&self, alloc: Global) -> Result<Value, AllocError> {
        Ok(Value::String(String::new(alloc)))
    }
}
