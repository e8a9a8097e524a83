//! Writing a field, so that it is read again.
ghost use Rattle.std.specs.Prelude.{◌≡◌, Bool, [], ◌∷◌, ◌++◌, OnOk, IfOk, IfSome, map};
ghost use Rattle.serde_json.specs.Data.{Data, put as with_member};
ghost use Rattle.serde_json.specs.View.{view, members_view};
ghost use Rattle.json_fields.specs.Writing.{IsWritten, AllWritten, list_data, put_required, put_optional, put_list};

use crate::fields::Form;
use crate::names::Name;
use names_realms::Listed;
use serde_json::{Map, Value};
use std::alloc::{AllocError, Global};

/// What is written so that it is read again as the same value. `json` is the JSON value that is
/// written, and `blank` says which values are written as empty ones.
pub trait Written: Form {
    ghost json: { Self → Data };

    ghost blank: { Self → Bool };

    /// The JSON value, which means this one. `Err` where there is no memory for it.
    fn write(&self, alloc: Global) -> Result<Value, AllocError>
        ensures value { IfOk result (λ v. view v ≡ json self.now) }
        ensures again { OnOk result
            (IsWritten Self.fault Self.means Self.empty blank self.now (json self.now)) };
}

/// Puts a value under the lowerCamelCase name.
pub fn put(
    alloc: Global,
    map: &mut Map<String, Value>,
    name: &Name,
    value: Value,
) -> Result<(), AllocError>
    ensures { OnOk result (members_view map.new.entries
        ≡ with_member name.now.camel (view value) (members_view map.old.entries)) }
{
    serde_json::put(map, alloc, name.camel(), value)
}

/// Writes a field that must be set.
pub fn write_required<T: Written>(
    alloc: Global,
    map: &mut Map<String, Value>,
    name: Name,
    x: &T,
) -> Result<(), AllocError>
    ensures members { OnOk result (members_view map.new.entries
        ≡ put_required name T.json x.now (members_view map.old.entries)) }
    ensures again { OnOk result (IsWritten T.fault T.means T.empty T.blank x.now (T.json x.now)) }
{
    let value = x.write(alloc)?;
    put(alloc, map, &name, value)?;
    Ok(())
}

/// Writes a field that may be unset: nothing where it is.
pub fn write_optional<T: Written>(
    alloc: Global,
    map: &mut Map<String, Value>,
    name: Name,
    x: &Option<T>,
) -> Result<(), AllocError>
    ensures members { OnOk result (members_view map.new.entries
        ≡ put_optional name T.json x.now (members_view map.old.entries)) }
    ensures again { OnOk result (IfSome x.now (λ a.
        IsWritten T.fault T.means T.empty T.blank a (T.json a))) }
{
    match x {
        None => Ok(()),
        Some(x) => {
            write_required(alloc, map, name, x)?;
            Ok(())
        }
    }
}

/// Appends what is written of a value.
fn add_written<T: Written>(alloc: Global, list: &mut Vec<Value>, x: &T) -> Result<(), AllocError>
    ensures values { OnOk result (map view list.new.items
        ≡ map view list.old.items ++ T.json x.now ∷ []) }
    ensures again { OnOk result (IsWritten T.fault T.means T.empty T.blank x.now (T.json x.now)) }
{
    let value = x.write(alloc)?;
    list.push(value)?;
    Ok(())
}

/// The JSON list of the values.
fn write_all<T: Written>(alloc: Global, xs: &[T]) -> Result<Value, AllocError>
    ensures value { IfOk result (λ v. view v ≡ list_data T.json xs.now) }
    ensures again { OnOk result (AllWritten T.fault T.means T.empty T.blank T.json xs.now) }
{
    let mut list = Vec::with_capacity(alloc, xs.len())?;
    for x in xs {
        add_written(alloc, &mut list, x)?;
    }
    Ok(Value::Array(list))
}

impl<T: Written> Written for Listed<T> {
    ghost use Rattle.json_fields.specs.Writing.{list_data, is_bare};

    ghost json = { list_data T.json };

    ghost blank = { is_bare };

    fn write(&self, alloc: Global) -> Result<Value, AllocError> {
        write_all(alloc, self.as_slice())
    }
}

/// Writes a list that may be unset: nothing where it is empty.
pub fn write_list<T: Written>(
    alloc: Global,
    map: &mut Map<String, Value>,
    name: Name,
    xs: &[T],
) -> Result<(), AllocError>
    ensures members { OnOk result (members_view map.new.entries
        ≡ put_list name T.json xs.now (members_view map.old.entries)) }
    ensures again { OnOk result (AllWritten T.fault T.means T.empty T.blank T.json xs.now) }
{
    if xs.is_empty() {
        return Ok(());
    }
    let value = write_all(alloc, xs)?;
    put(alloc, map, &name, value)?;
    Ok(())
}
