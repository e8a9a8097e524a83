//! What is written as JSON values, and lists of it.
ghost use Rattle.std.specs.Prelude.{◌≡◌, ◌++◌, ◌∷◌, [], IfOk, OnOk, map};
ghost use Rattle.serde_json.specs.Data.{Data};
ghost use Rattle.serde_json.specs.View.{view};
ghost use Rattle.json_fields.specs.Writing.{list_data};

use serde_json::Value;
use std::alloc::{AllocError, Global};

/// What is written as a JSON value.
pub(crate) trait Shown {
    ghost shows: { Self → Data };

    /// The JSON value. `Err` where there is no memory for it.
    fn value(&self, alloc: Global) -> Result<Value, AllocError>
        ensures { IfOk result (λ v. view v ≡ shows self.now) };
}

/// Appends what is written of a value.
fn add_shown<T: Shown>(alloc: Global, list: &mut Vec<Value>, x: &T) -> Result<(), AllocError>
    ensures { OnOk result (map view list.new.items
        ≡ map view list.old.items ++ T.shows x.now ∷ []) }
{
    let value = x.value(alloc)?;
    list.push(value)?;
    Ok(())
}

/// The JSON list of the values.
pub(crate) fn list_value<T: Shown>(alloc: Global, xs: &[T]) -> Result<Value, AllocError>
    ensures { IfOk result (λ v. view v ≡ list_data T.shows xs.now) }
{
    let mut list = Vec::with_capacity(alloc, xs.len())?;
    for x in xs {
        add_shown(alloc, &mut list, x)?;
    }
    Ok(Value::Array(list))
}
