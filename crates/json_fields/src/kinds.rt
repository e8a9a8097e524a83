//! Objects, and lists that aren't built yet.
ghost use Rattle.std.specs.Prelude.{◌≡◌, None, IfOk, IfErr};
ghost use Rattle.serde_json.specs.View.{view};
ghost use Rattle.json_fields.specs.Faults.{Says};
ghost use Rattle.json_fields.specs.Kinds.{an_object};

use crate::elements::is_empty_list;
use crate::faults::{FaultKind, ReadFault};
use crate::fields::Form;
use crate::whys::Why;
use serde_json::Value;
use std::alloc::Global;

/// Whether a value is an object: `WrongKind` where it is none.
pub fn object(alloc: Global, value: &Value) -> Result<(), ReadFault>
    ensures ok { IfOk result (λ _. an_object (view value.now) ≡ None) }
    ensures err { IfErr result (λ e. Says e (an_object (view value.now))) }
{
    match value {
        Value::Object(_) => Ok(()),
        _ => Err(ReadFault::here(alloc, FaultKind::WrongKind)),
    }
}

/// A list that isn't built yet, and so has to be empty where it is set: else `NotBuilt`.
#[derive(Debug, Drop)]
pub struct UnbuiltList;

impl Form for UnbuiltList {
    ghost use Rattle.std.specs.Prelude.{⊤};
    ghost use Rattle.json_fields.specs.Kinds.{an_unbuilt_list, empty_list};

    ghost fault = { an_unbuilt_list };

    ghost means = { λ _ _. ⊤ };

    ghost empty = { empty_list };

    fn is_empty(value: &Value) -> bool {
        is_empty_list(value)
    }

    fn read(alloc: Global, value: &Value) -> Result<UnbuiltList, ReadFault> {
        match value {
            Value::Array(list) => if list.as_slice().is_empty() {
                Ok(UnbuiltList)
            } else {
                Err(ReadFault::here(alloc, FaultKind::BadValue(Why::NotBuilt)))
            },
            _ => Err(ReadFault::here(alloc, FaultKind::WrongKind)),
        }
    }
}
