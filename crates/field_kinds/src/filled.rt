//! Fields that may be unset, where an empty value counts as unset.
ghost use Rattle.std.specs.Prelude.{◌≡◌, None, IfOk, IfErr};
ghost use Rattle.serde_json.specs.View.{view};
ghost use Rattle.json_fields.specs.Faults.{Says};
ghost use Rattle.json_fields.specs.Fields.{filled_at, HoldsMaybe};
ghost use Rattle.field_kinds.specs.Filled.{optional_filled};

use json_fields::{Form, Name, ReadFault, optional};
use serde_json::Value;
use std::alloc::Global;

/// A value of a kind, or `None` where it is null or empty by the kind.
#[derive(Debug, Drop)]
struct Filled<T> {
    value: Option<T>,
}

impl<T: Form> Form for Filled<T> {
    ghost use Rattle.json_fields.specs.Fields.{filled, HoldsMaybe};
    ghost use Rattle.field_kinds.specs.Filled.{if_filled};

    ghost fault = { if_filled T.empty T.fault };

    ghost means = { λ d x. HoldsMaybe T.means (filled T.empty d) x.value };

    ghost empty = { T.empty };

    fn is_empty(value: &Value) -> bool {
        T::is_empty(value)
    }

    fn read(alloc: Global, value: &Value) -> Result<Filled<T>, ReadFault> {
        if value.is_null() || T::is_empty(value) {
            return Ok(Filled { value: None });
        }
        let found = T::read(alloc, value)?;
        Ok(Filled { value: Some(found) })
    }
}

/// A field that may be unset: `None` where it is, or is null, or empty by its kind.
pub fn optional_filled<T: Form>(
    alloc: Global,
    value: &Value,
    name: Name,
) -> Result<Option<T>, ReadFault>
    ensures ok { IfOk result (λ o. (optional_filled name T.empty T.fault (view value.now) ≡ None)
        × HoldsMaybe T.means (filled_at name T.empty (view value.now)) o) }
    ensures err { IfErr result (λ e.
        Says e (optional_filled name T.empty T.fault (view value.now))) }
{
    match optional::<Filled<T>>(alloc, value, name) {
        Ok(Some(found)) => Ok(found.value),
        Ok(None) => Ok(None),
        Err(fault) => Err(fault),
    }
}
