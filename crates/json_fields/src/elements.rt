//! Lists, whose elements are of a kind.
ghost use Rattle.std.specs.Prelude.{◌≡◌, [], ◌∷◌, ◌++◌, None, IfOk, IfErr, OnOk, map};
ghost use Rattle.serde_json.specs.View.{view};
ghost use Rattle.json_fields.specs.Faults.{Says};
ghost use Rattle.json_fields.specs.Fields.{fault_from, Pairs};
ghost use Rattle.json_fields.specs.Kinds.{empty_list};

use crate::faults::{FaultKind, ReadFault};
use crate::fields::Form;
use crate::names::Step;
use names_realms::Listed;
use serde_json::Value;
use std::alloc::{AllocError, Global};

/// Whether a value is a list without elements.
pub(crate) fn is_empty_list(value: &Value) -> bool
    ensures { result ≡ empty_list (view value.now) }
{
    match value {
        Value::Array(list) => list.as_slice().is_empty(),
        _ => false,
    }
}

impl<T: Form> Form for Listed<T> {
    ghost use Rattle.json_fields.specs.Kinds.{a_list, empty_list, IsEach};

    ghost fault = { a_list T.fault };

    ghost means = { IsEach T.means };

    ghost empty = { empty_list };

    fn is_empty(value: &Value) -> bool {
        is_empty_list(value)
    }

    fn read(alloc: Global, value: &Value) -> Result<Listed<T>, ReadFault> {
        match value {
            Value::Array(list) => read_all(alloc, list),
            _ => Err(ReadFault::here(alloc, FaultKind::WrongKind)),
        }
    }
}

fn add<T: Drop>(found: &mut Vec<T>, one: T) -> Result<(), AllocError>
    ensures { OnOk result (found.new.items ≡ found.old.items ++ one ∷ []) }
{
    found.push(one)?;
    Ok(())
}

/// The values of the elements, or the fault of the first that has one.
fn read_all<T: Form>(alloc: Global, list: &[Value]) -> Result<Listed<T>, ReadFault>
    ensures ok { IfOk result (λ xs. (fault_from 0 T.fault (map view list.now) ≡ None)
        × Pairs T.means (map view list.now) xs) }
    ensures err { IfErr result (λ e. Says e (fault_from 0 T.fault (map view list.now))) }
{
    let mut found = Vec::new(alloc);
    for i in 0..list.len() {
        match T::read(alloc, &list[i]) {
            Ok(one) => add(&mut found, one)?,
            Err(fault) => return Err(fault.under(Step::Place(i))),
        }
    }
    Ok(Listed::new(found))
}
